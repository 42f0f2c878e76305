ghost use Rattle.std.specs.Prelude.{◌≡◌, ◌↔◌, ℕ, ◌<◌, List, None, Some, true, length, map, IsSome, MatchOption, IfOk, ⊤};
ghost use Rattle.netlist_model.specs.Lists.{CellView, cell_at};
ghost use Rattle.netlist_model.specs.Orders.{IsCellOrder};
ghost use Rattle.link_model.specs.Denoted.{AreCells};
ghost use Rattle.link_model.specs.Nets.{declared_nets, declared_names, nets_in};
ghost use Rattle.link_model.specs.Faults.{bit_name, cells_in, text_fault};
ghost use Rattle.link_model.specs.Late.{HasNoDerived, IsDerived};
ghost use Rattle.link_model.specs.Lists.{first_in};
ghost use Rattle.link_rules.specs.Cones.{is_inout_net};
ghost use Rattle.link_rules.specs.ClocksFaults.{IsDerivedFault};
ghost use Rattle.link_rules.specs.Links.{control_net, found_link, found_net, is_found_net, operand_net, unnamed_cell};

use cell_library::{PortPlace, port_of};
use cell_order::lower_netlist_arena::Netlist;
use cell_order::mark_derived;
use link_model::{LinkFault, NetBit, is_inout};
use netlist_model::{CellId, Feed};
use std::alloc::Global;
use texts::{OutOfMemory, Text};
use verilog_tree::{Item, Link, Module};

/// The first clock, clear or preset in the text that has a flip-flop or an inout in its cone, where the module's cells
/// stand in a netlist and are in order.
pub fn find_derived(
    alloc: Global,
    tree: &Module,
    nets: &[NetBit],
    netlist: &Netlist,
    order: &[CellId],
) -> Result<Option<LinkFault>, OutOfMemory>
    requires nets { nets.now ≡ nets_in (declared_nets tree.now) }
    requires text { text_fault netlist.now.lists.library tree.now ≡ None }
    requires count { length nets.now ≡ length netlist.now.lists.nets }
    requires live { (table : List (List ℕ)) × AreCells table netlist.now.lists (cells_in netlist.now.lists.library tree.now) }
    requires order { IsCellOrder netlist.now.lists order.now }
    ensures { IfOk result (λ found. MatchOption found (HasNoDerived netlist.now.lists.library tree.now)
        (IsDerivedFault netlist.now.lists.library tree.now)) }
{
    let marks = derived_nets(alloc, tree, nets, netlist, order)?;
    first_derived(alloc, tree, nets, netlist, marks.as_slice())
}

// Of each net, whether a flip-flop or an inout is in its cone.
fn derived_nets(
    alloc: Global,
    tree: &Module,
    nets: &[NetBit],
    netlist: &Netlist,
    order: &[CellId],
) -> Result<Vec<bool>, OutOfMemory>
    requires count { length nets.now ≡ length netlist.now.lists.nets }
    requires live { (table : List (List ℕ)) × AreCells table netlist.now.lists (cells_in netlist.now.lists.library tree.now) }
    requires order { IsCellOrder netlist.now.lists order.now }
    ensures length { IfOk result (λ marks. length marks.items ≡ length nets.now) }
    ensures derived { IfOk result (λ marks. (net : ℕ) → (is_found_net marks.items net ≡ true)
        ↔ IsDerived nets.now (cells_in netlist.now.lists.library tree.now) net) }
{
    let mut marks = inout_nets(alloc, nets)?;
    mark_derived(netlist, order, marks.as_mut_slice());
    Ok(marks)
}

// Of each net, whether it is that of an inout's bit.
fn inout_nets(alloc: Global, nets: &[NetBit]) -> Result<Vec<bool>, OutOfMemory>
    ensures { IfOk result (λ marks. marks.items ≡ map is_inout_net nets.now) }
{
    let mut marks = Vec::with_capacity(alloc, nets.len())?;
    for net in nets {
        marks.push(is_inout(net.dir()))?;
    }
    Ok(marks)
}

// The first clock, clear or preset in the text whose net is marked.
fn first_derived(
    alloc: Global,
    tree: &Module,
    nets: &[NetBit],
    netlist: &Netlist,
    marks: &[bool],
) -> Result<Option<LinkFault>, OutOfMemory>
    requires nets { nets.now ≡ nets_in (declared_nets tree.now) }
    requires text { text_fault netlist.now.lists.library tree.now ≡ None }
    requires count { length nets.now ≡ length netlist.now.lists.nets }
    requires live { (table : List (List ℕ)) × AreCells table netlist.now.lists (cells_in netlist.now.lists.library tree.now) }
    requires marks { length marks.now ≡ length nets.now }
    requires derived { (net : ℕ) → (is_found_net marks.now net ≡ true)
        ↔ IsDerived nets.now (cells_in netlist.now.lists.library tree.now) net }
    ensures { IfOk result (λ fault. MatchOption fault (HasNoDerived netlist.now.lists.library tree.now)
        (IsDerivedFault netlist.now.lists.library tree.now)) }
{
    for (number, item) in tree.items.as_slice().iter().enumerate() {
        match item {
            Item::Instance(instance) => {
                let cell = numbered_cell(netlist, number);
                match first_found(netlist, marks, cell, instance.links.as_slice()) {
                    Some(net) => {
                        let fault = derived_fault(alloc, &instance.name, &nets[net as usize])?;
                        return Ok(Some(fault));
                    }
                    None => {}
                }
            }
            Item::Gate(_) => {}
            Item::Assign { .. } => {}
        }
    }
    Ok(None)
}

// The cell with this number.
fn numbered_cell(netlist: &Netlist, number: usize) -> CellId
    requires { IsSome (cell_at netlist.now.lists number) }
    ensures { result.0 ≡ number }
{
    // Asked so that the proof knows that the number is one of 32 bits.
    let _bound = netlist.cell_bound();
    CellId(number as u32)
}

// The net of the first link of the cell's clock, clear or preset that is marked.
fn first_found(netlist: &Netlist, marks: &[bool], cell: CellId, links: &[Link]) -> Option<u32>
    requires live { IsSome (cell_at netlist.now.lists cell.0) }
    requires marks { length marks.now ≡ length netlist.now.lists.nets }
    ensures found { (found : CellView) → cell_at netlist.now.lists cell.0 ≡ Some found → result ≡ first_in
        (found_link netlist.now.lists.library marks.now (unnamed_cell netlist.now.lists.library found)) links.now }
    ensures below { MatchOption result ⊤ (λ net. net < length netlist.now.lists.nets) }
{
    for link in links {
        if let Some(net) = control_net(netlist, cell, link) {
            if marks[net as usize] {
                return Some(net);
            }
        }
    }
    None
}

// The net of a link, if that is of a flip-flop's clock, clear or preset.
fn control_net(netlist: &Netlist, cell: CellId, link: &Link) -> Option<u32>
    requires { IsSome (cell_at netlist.now.lists cell.0) }
    ensures net { (found : CellView) → cell_at netlist.now.lists cell.0 ≡ Some found
        → result ≡ control_net netlist.now.lists.library (unnamed_cell netlist.now.lists.library found) link.now }
    ensures below { MatchOption result ⊤ (λ net. net < length netlist.now.lists.nets) }
{
    if netlist.flop(cell).is_none() {
        return None;
    }
    match port_of(netlist.library(), netlist.kind(cell), link.port.as_bytes()) {
        Some(PortPlace::Input(place)) if place == 1 || place == 2 => {
            operand_net(netlist, cell, place)
        }
        _ => None,
    }
}

fn derived_fault(alloc: Global, flop: &Text, net: &NetBit) -> Result<LinkFault, OutOfMemory>
    ensures { IfOk result (λ f. f ≡ LinkFault.DerivedClock flop.now (bit_name net.now)) }
{
    Ok(LinkFault::DerivedClock {
        flop: Text::from_bytes(alloc, flop.as_bytes())?,
        net: net.bit_name(alloc)?,
    })
}

// The net at a place of the operands.
fn operand_net(netlist: &Netlist, cell: CellId, place: u32) -> Option<u32>
    requires { IsSome (cell_at netlist.now.lists cell.0) }
    ensures net { (found : CellView) → cell_at netlist.now.lists cell.0 ≡ Some found
        → result ≡ operand_net found.feeds place }
    ensures below { MatchOption result ⊤ (λ net. net < length netlist.now.lists.nets) }
{
    if place >= netlist.feed_count(cell) {
        return None;
    }
    match netlist.feed(cell, place) {
        Feed::Net(net) => Some(net.0),
        Feed::Const(_) => None,
    }
}
