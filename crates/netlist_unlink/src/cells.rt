// The items of a tree.
ghost use Rattle.std.specs.Prelude.{◌≡◌, ◌<◌, ◌^◌, ℕ, option_map, Some, None, IfOk, IfSome, OnOk};
ghost use Rattle.cell_library.specs.Library.{cell_name};
ghost use Rattle.netlist_model.specs.Lists.{cell_at};
ghost use Rattle.netlist_arena.specs.Looks.{IsLive};
ghost use Rattle.netlist_link.specs.Linked.{IsLinked};
ghost use Rattle.netlist_unlink.specs.Trees.{gate_of, item_of, items_from, naming_of, written};

use crate::kinds::gate_kind;
use crate::links::cell_links;
use crate::parts::{cell_inputs, cell_name, driven_bit, first_input, instance_name};
use cell_library::{Kind, cell_name as library_name};
use netlist_link::Linked;
use netlist_model::CellId;
use std::alloc::Global;
use texts::{OutOfMemory, Row, Text};
use verilog_tree::{Gate, GateKind, Instance, Item};

/// The items of the cells, by rising number.
pub fn tree_items(alloc: Global, linked: &Linked, prefix: &[u8]) -> Result<Row<Item>, OutOfMemory>
    ensures items { IfOk result (λ items. items
        ≡ items_from (naming_of linked.now prefix.now) 0 linked.now.arena.lists.cells) }
    ensures numbers { OnOk result ((i : ℕ) → IsLive linked.now.arena.lists i → i < 2 ^ 32) }
{
    let live = linked.netlist().cell_count();
    let mut items = Row::new(alloc);
    let mut seen = 0;
    for number in 0..u32::MAX {
        if seen == live {
            return Ok(items);
        }
        if linked.netlist().is_live(CellId(number)) {
            items.push(item(alloc, linked, prefix, CellId(number))?)?;
            seen += 1;
        }
    }
    // There are no more numbers.
    Err(OutOfMemory)
}

// A cell as a gate, as an instance of a library cell or a listed one, or as an `assign`.
fn item(alloc: Global, linked: &Linked, prefix: &[u8], cell: CellId) -> Result<Item, OutOfMemory>
    requires { IsLive linked.now.arena.lists cell.0 }
    ensures { IfOk result (λ item. option_map (item_of (naming_of linked.now prefix.now) cell.0)
        (cell_at linked.now.arena.lists cell.0) ≡ Some item) }
{
    let netlist = linked.netlist();
    let kind = netlist.kind(cell);
    match gate_kind(kind) {
        Some(gate) => gate_item(alloc, linked, prefix, cell, gate),
        None => match library_name(netlist.library(), kind) {
            Some(library) => instance(alloc, linked, prefix, cell, kind, library),
            None => assign(alloc, linked, prefix, cell),
        },
    }
}

fn gate_item(
    alloc: Global,
    linked: &Linked,
    prefix: &[u8],
    cell: CellId,
    gate: GateKind,
) -> Result<Item, OutOfMemory>
    requires linked { IsLinked linked.now.arena.lists linked.now.names linked.now.order }
    requires live { IsLive linked.now.arena.lists cell.0 }
    requires gate { IfSome (cell_at linked.now.arena.lists cell.0) (λ found. gate_of found.kind
        ≡ Some gate) }
    ensures { IfOk result (λ item. option_map
        (λ found. written (naming_of linked.now prefix.now) cell.0 found (Some gate) None)
        (cell_at linked.now.arena.lists cell.0) ≡ Some item) }
{
    Ok(Item::Gate(Gate {
        kind: gate,
        name: cell_name(alloc, linked, prefix, cell)?,
        output: driven_bit(alloc, linked, prefix, cell)?,
        inputs: cell_inputs(alloc, linked, prefix, cell)?,
    }))
}

fn instance(
    alloc: Global,
    linked: &Linked,
    prefix: &[u8],
    cell: CellId,
    kind: Kind,
    library: &[u8],
) -> Result<Item, OutOfMemory>
    requires linked { IsLinked linked.now.arena.lists linked.now.names linked.now.order }
    requires live { IsLive linked.now.arena.lists cell.0 }
    requires kind { IfSome (cell_at linked.now.arena.lists cell.0) (λ found. found.kind ≡ kind) }
    requires library { cell_name linked.now.arena.lists.library kind ≡ Some library.now }
    ensures { IfOk result (λ item. option_map
        (λ found. written (naming_of linked.now prefix.now) cell.0 found None (Some library.now))
        (cell_at linked.now.arena.lists cell.0) ≡ Some item) }
{
    Ok(Item::Instance(Instance {
        cell: Text::from_bytes(alloc, library)?,
        name: instance_name(alloc, linked, prefix, cell)?,
        links: cell_links(alloc, linked, prefix, cell, kind)?,
    }))
}

fn assign(alloc: Global, linked: &Linked, prefix: &[u8], cell: CellId) -> Result<Item, OutOfMemory>
    requires linked { IsLinked linked.now.arena.lists linked.now.names linked.now.order }
    requires live { IsLive linked.now.arena.lists cell.0 }
    requires gate { IfSome (cell_at linked.now.arena.lists cell.0) (λ found. gate_of found.kind ≡ None) }
    requires name { IfSome (cell_at linked.now.arena.lists cell.0)
        (λ found. cell_name linked.now.arena.lists.library found.kind ≡ None) }
    ensures { IfOk result (λ item. option_map
        (λ found. written (naming_of linked.now prefix.now) cell.0 found None None)
        (cell_at linked.now.arena.lists cell.0) ≡ Some item) }
{
    Ok(Item::Assign {
        output: driven_bit(alloc, linked, prefix, cell)?,
        input: first_input(alloc, linked, prefix, cell)?,
    })
}
