ghost use Rattle.std.specs.Prelude.{◌≡◌, IfOk};
ghost use Rattle.netlist_model.specs.Formed.{IsWellFormed};
ghost use Rattle.netlist_model.specs.Orders.{IsCellOrder};
ghost use Rattle.link_arena.specs.cell_order.Tables.{FitsRoom};
ghost use Rattle.netlist_link.specs.Linked.{HidesNone};
ghost use Rattle.netlist_link.specs.Links.{IsLinkOf};
ghost use Rattle.netlist_link.specs.Steps.{IsBuilt, IsSound};
ghost use Rattle.netlist_link.specs.WellNamed.{IsWellNamed};

use crate::linked::Linked;
use crate::port_names::ports_by_name;
use crate::straight::Straight;
use link_arena::Built;
use link_arena::lower_cell_order::WorkArea;
use link_arena::lower_link_rules::{controls_are_links, nets_have_their_drivers};
use link_arena::name_table::NameTable;
use netlist_arena::Netlist;
use netlist_model::CellId;
use std::alloc::Global;
use texts::{OutOfMemory, Text};
use verilog_tree::Module;

/// A linked netlist from what was built of a module and an order of its cells, where no fault stands.
pub fn assemble(
    alloc: Global,
    tree: &Module,
    built: Built,
    area: WorkArea,
) -> Result<Linked, OutOfMemory>
    requires sound { IsSound built.netlist.lists.library tree.now }
    requires built { IsBuilt tree.now built.netlist.lists built.names }
    requires order { IsCellOrder built.netlist.lists area.order }
    requires room { FitsRoom built.netlist.lists area.room }
    ensures linked { IfOk result (IsLinkOf tree.now) }
    ensures library { IfOk result (λ linked. linked.arena.lists.library ≡ built.netlist.lists.library) }
    ensures marks { IfOk result HidesNone }
{
    let Built { netlist, names } = built;
    is_well_named(tree, &netlist, &names);
    is_well_formed(tree, &netlist, &names, area.order());
    let ports = ports_by_name(alloc, &netlist, &names)?;
    let title = Text::from_bytes(alloc, tree.name.as_bytes())?;
    let mut area = area;
    area.flag_ports(&netlist);
    let straight = Straight::none(netlist.port_count());
    Ok(Linked {
        netlist,
        names,
        title,
        area,
        ports,
        straight,
        inner: 0,
        rails: Vec::new(alloc),
        alloc,
    })
}

// Does nothing: the netlist of a module is well formed.
fn is_well_formed(tree: &Module, netlist: &Netlist, names: &NameTable, order: &[CellId])
    requires sound { IsSound netlist.now.lists.library tree.now }
    requires built { IsBuilt tree.now netlist.now.lists names.now }
    requires order { IsCellOrder netlist.now.lists order.now }
    ensures { IsWellFormed netlist.now.lists }
{
    nets_have_their_drivers();
    controls_are_links();
}

// Does nothing: the netlist of a module is well named.
fn is_well_named(tree: &Module, netlist: &Netlist, names: &NameTable)
    requires sound { IsSound netlist.now.lists.library tree.now }
    requires built { IsBuilt tree.now netlist.now.lists names.now }
    ensures { IsWellNamed names.now netlist.now.lists }
{
    // Looked at so that the proof has its facts.
    let _count = names.len();
}
