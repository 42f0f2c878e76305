// A linked netlist as a module.
ghost use Rattle.std.specs.Prelude.{◌≡◌, ◌<◌, ◌^◌, ℕ, length, IfOk, OnOk};
ghost use Rattle.verilog_tree.specs.IsTree.{IsTree, IsTreeName};
ghost use Rattle.netlist_model.specs.Formed.{IsLaidOut};
ghost use Rattle.netlist_arena.specs.Looks.{IsLive};
ghost use Rattle.netlist_link.specs.Linked.{IsLinked};
ghost use Rattle.netlist_link.specs.Links.{IsLinkOf};
ghost use Rattle.netlist_unlink.specs.Prefixes.{IsFreePrefix};
ghost use Rattle.netlist_unlink.specs.Kept.{AreKept};
ghost use Rattle.netlist_unlink.specs.Renumbered.{DenotesSame, IsWrittenAs};
ghost use Rattle.netlist_unlink.specs.Trees.{naming_of, tree_of};

use crate::cells::tree_items;
use crate::ports::tree_ports;
use crate::wires::tree_wires;
use netlist_link::Linked;
use std::alloc::Global;
use texts::{OutOfMemory, Text};
use verilog_tree::Module;

/// The module that a netlist is written as: added nets are called `<prefix>n<number>` and added cells
/// `<prefix>c<number>`, by their numbers in the netlist. Time and memory are linear in the netlist.
pub fn unlink(alloc: Global, linked: &Linked, prefix: &[u8]) -> Result<Module, OutOfMemory>
    requires { IsFreePrefix linked.now prefix.now }
    ensures written { IfOk result (λ tree. tree ≡ tree_of linked.now prefix.now) }
    ensures tree { IfOk result IsTree }
    ensures denotes { IfOk result (IsWrittenAs linked.now prefix.now) }
{
    let tree = write_tree(alloc, linked, prefix)?;
    is_linked(linked);
    Ok(tree)
}

/// A law: the item of each live cell keeps its kind, its name and the count of its operands.
pub fn items_keep_their_cells(linked: &Linked, prefix: &[u8])
    ensures { AreKept linked.now.arena.lists (naming_of linked.now prefix.now) }
{
    is_linked(linked);
    // Looked at so that the proof has its facts.
    let _length = prefix.len();
}

/// A law: what is written of a netlist that was just linked denotes what the linked tree denotes, and can be linked as
/// that: nothing was added, so nets and cells keep their numbers.
pub fn unlink_undoes_link(tree: &Module, linked: &Linked, prefix: &[u8])
    requires linked { IsLinkOf tree.now linked.now }
    requires free { IsFreePrefix linked.now prefix.now }
    ensures { DenotesSame linked.now.arena.lists.library tree.now (tree_of linked.now prefix.now) }
{
    is_linked(linked);
    // Looked at so that the proof has their facts.
    let _length = prefix.len();
    let _ports = tree.ports.len();
}

// The tree, of a netlist whose cells have numbers below 2^32.
fn write_tree(alloc: Global, linked: &Linked, prefix: &[u8]) -> Result<Module, OutOfMemory>
    ensures written { IfOk result (λ tree. tree ≡ tree_of linked.now prefix.now) }
    ensures numbers { OnOk result ((i : ℕ) → IsLive linked.now.arena.lists i → i < 2 ^ 32) }
{
    let name = Text::from_bytes(alloc, linked.module_name())?;
    let ports = tree_ports(alloc, linked)?;
    let wires = tree_wires(alloc, linked, prefix)?;
    let items = tree_items(alloc, linked, prefix)?;
    Ok(Module {
        name,
        ports,
        wires,
        items,
    })
}

/// Does nothing: what always holds of a linked netlist.
pub(crate) fn is_linked(linked: &Linked)
    ensures linked { IsLinked linked.now.arena.lists linked.now.names linked.now.order }
    ensures laid_out { IsLaidOut linked.now.arena.lists }
    ensures few { length linked.now.arena.lists.nets < 2 ^ 32 }
    ensures title { IsTreeName linked.now.module_name }
{
    let netlist = linked.netlist();
    netlist.is_laid_out();
    // Looked at so that the proof has their facts.
    let _count = netlist.net_count();
    let _title = linked.module_name();
}
