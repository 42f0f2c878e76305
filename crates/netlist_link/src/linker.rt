ghost use Rattle.std.specs.Prelude.{◌≡◌, None, IfErr, IfOk};
ghost use Rattle.verilog_tree.specs.IsTree.{IsTree};
ghost use Rattle.link_names.specs.link_model.Faults.{cells_in, driver_fault};
ghost use Rattle.link_names.specs.link_model.Late.{HasNoDerived};
ghost use Rattle.netlist_model.specs.Orders.{IsCellOrder};
ghost use Rattle.link_arena.specs.cell_order.Loops.{IsOrderFault};
ghost use Rattle.link_arena.specs.cell_order.Tables.{FitsRoom};
ghost use Rattle.netlist_link.specs.Linked.{HidesNone};
ghost use Rattle.netlist_link.specs.Links.{IsLinkFault, IsLinkOf};
ghost use Rattle.netlist_link.specs.Steps.{AreNetsAndCells, IsBuilt, link_fault};

use crate::assemble::assemble;
use crate::linked::Linked;
use cell_library::Library;
use link_arena::lower_cell_order::{OrderFault, WorkArea};
use link_arena::lower_link_rules::{find_derived, find_driver_fault, nets_have_their_drivers};
use link_arena::{Built, build};
use link_names::lower_link_model::{LinkFault, NetBit};
use link_names::{Resolved, resolve};
use netlist_arena::Netlist;
use std::alloc::Global;
use texts::OutOfMemory;
use verilog_tree::Module;

/// The netlist that a module denotes, or the first fault of the module. Time and memory are linear in nets, cells and
/// operands.
pub fn link(alloc: Global, tree: &Module, library: Library) -> Result<Linked, LinkFault>
    requires tree { IsTree tree.now }
    ensures ok { IfOk result (IsLinkOf tree.now) }
    ensures library { IfOk result (λ linked. linked.arena.lists.library ≡ library) }
    ensures marks { IfOk result HidesNone }
    ensures fault { IfErr result (IsLinkFault library tree.now) }
{
    // Asked so that the proof knows that it is a library.
    let _count = library.count();
    match resolve(alloc, &library, tree) {
        Ok(resolved) => link_resolved(alloc, tree, library, resolved),
        Err(fault) => Err(fault),
    }
}

// Goes on where no fault stands in the text.
#[tactic(auto, using(link_arena::proofs::Parts::are_below))]
fn link_resolved(
    alloc: Global,
    tree: &Module,
    library: Library,
    resolved: Resolved,
) -> Result<Linked, LinkFault>
    requires { AreNetsAndCells library tree.now resolved.nets.items resolved.cells.items }
    ensures ok { IfOk result (IsLinkOf tree.now) }
    ensures library { IfOk result (λ linked. linked.arena.lists.library ≡ library) }
    ensures marks { IfOk result HidesNone }
    ensures fault { IfErr result (IsLinkFault library tree.now) }
{
    match find_driver_fault(alloc, &resolved.nets, &resolved.cells) {
        Ok(Some(fault)) => Err(fault),
        Ok(None) => link_driven(alloc, tree, library, resolved),
        Err(OutOfMemory) => Err(LinkFault::OutOfMemory),
    }
}

// Goes on where each net has the drivers that it may have.
#[tactic(auto, using(link_arena::proofs::Parts::are_below))]
fn link_driven(
    alloc: Global,
    tree: &Module,
    library: Library,
    resolved: Resolved,
) -> Result<Linked, LinkFault>
    requires these { AreNetsAndCells library tree.now resolved.nets.items resolved.cells.items }
    requires drivers { driver_fault resolved.nets.items resolved.cells.items ≡ None }
    ensures ok { IfOk result (IsLinkOf tree.now) }
    ensures library { IfOk result (λ linked. linked.arena.lists.library ≡ library) }
    ensures marks { IfOk result HidesNone }
    ensures fault { IfErr result (IsLinkFault library tree.now) }
{
    match build(alloc, library, tree, &resolved.nets, &resolved.cells) {
        Ok(built) => link_built(alloc, tree, resolved, built),
        Err(OutOfMemory) => Err(LinkFault::OutOfMemory),
    }
}

// Goes on with the netlist. The cells on the way are given back before the netlist's are ordered.
fn link_built(
    alloc: Global,
    tree: &Module,
    resolved: Resolved,
    built: Built,
) -> Result<Linked, LinkFault>
    requires these { AreNetsAndCells built.netlist.lists.library tree.now resolved.nets.items resolved.cells.items }
    requires drivers { driver_fault resolved.nets.items resolved.cells.items ≡ None }
    requires built { IsBuilt tree.now built.netlist.lists built.names }
    ensures ok { IfOk result (IsLinkOf tree.now) }
    ensures library { IfOk result (λ linked. linked.arena.lists.library ≡ built.netlist.lists.library) }
    ensures marks { IfOk result HidesNone }
    ensures fault { IfErr result (IsLinkFault built.netlist.lists.library tree.now) }
{
    let Resolved { nets, cells } = resolved;
    drop(cells);
    match ordered_area(alloc, &built.netlist) {
        Ok(area) => link_ordered(alloc, tree, nets, built, area),
        Err(fault) => Err(link_fault(fault)),
    }
}

// A fault of ordering as one of linking.
fn link_fault(fault: OrderFault) -> LinkFault
    ensures { result ≡ link_fault fault }
{
    match fault {
        OrderFault::Loop { numbers } => LinkFault::Loop { numbers },
        OrderFault::OutOfMemory => LinkFault::OutOfMemory,
    }
}

// An order of the cells, or a loop.
fn ordered_area(alloc: Global, netlist: &Netlist) -> Result<WorkArea, OrderFault>
    ensures order { IfOk result (λ area. IsCellOrder netlist.now.lists area.order) }
    ensures room { IfOk result (λ area. FitsRoom netlist.now.lists area.room) }
    ensures fault { IfErr result (IsOrderFault netlist.now.lists) }
{
    let mut area = WorkArea::new(alloc);
    area.reserve(netlist.cell_count(), netlist.net_count())?;
    area.order_cells(alloc, netlist)?;
    Ok(area)
}

// Goes on where no cells read in a loop.
fn link_ordered(
    alloc: Global,
    tree: &Module,
    nets: Vec<NetBit>,
    built: Built,
    area: WorkArea,
) -> Result<Linked, LinkFault>
    requires these { AreNetsAndCells built.netlist.lists.library tree.now nets.items (cells_in built.netlist.lists.library tree.now) }
    requires drivers { driver_fault nets.items (cells_in built.netlist.lists.library tree.now) ≡ None }
    requires built { IsBuilt tree.now built.netlist.lists built.names }
    requires order { IsCellOrder built.netlist.lists area.order }
    requires room { FitsRoom built.netlist.lists area.room }
    ensures ok { IfOk result (IsLinkOf tree.now) }
    ensures library { IfOk result (λ linked. linked.arena.lists.library ≡ built.netlist.lists.library) }
    ensures marks { IfOk result HidesNone }
    ensures fault { IfErr result (IsLinkFault built.netlist.lists.library tree.now) }
{
    nets_have_their_drivers();
    match find_derived(alloc, tree, &nets, &built.netlist, area.order()) {
        Ok(Some(fault)) => Err(fault),
        Ok(None) => match link_sound(alloc, tree, nets, built, area) {
            Ok(linked) => Ok(linked),
            Err(OutOfMemory) => Err(LinkFault::OutOfMemory),
        },
        Err(OutOfMemory) => Err(LinkFault::OutOfMemory),
    }
}

// Makes the linked netlist where no fault stands. The nets on the way are given back before that.
fn link_sound(
    alloc: Global,
    tree: &Module,
    nets: Vec<NetBit>,
    built: Built,
    area: WorkArea,
) -> Result<Linked, OutOfMemory>
    requires these { AreNetsAndCells built.netlist.lists.library tree.now nets.items (cells_in built.netlist.lists.library tree.now) }
    requires drivers { driver_fault nets.items (cells_in built.netlist.lists.library tree.now) ≡ None }
    requires built { IsBuilt tree.now built.netlist.lists built.names }
    requires order { IsCellOrder built.netlist.lists area.order }
    requires room { FitsRoom built.netlist.lists area.room }
    requires derived { HasNoDerived built.netlist.lists.library tree.now }
    ensures ok { IfOk result (IsLinkOf tree.now) }
    ensures library { IfOk result (λ linked. linked.arena.lists.library ≡ built.netlist.lists.library) }
    ensures marks { IfOk result HidesNone }
{
    nets_have_their_drivers();
    drop(nets);
    assemble(alloc, tree, built, area)
}
