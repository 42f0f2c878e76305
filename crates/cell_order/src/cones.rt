// Which nets stand in the cones of clocks, clears and presets.

ghost use Rattle.std.specs.Prelude.{◌≡◌, ◌≤◌, ◌<◌, ◌↔◌, ℕ, IsSome, IsTrue, length, vec_capacity};
ghost use Rattle.netlist_model.specs.Cones.{FlopReads, IsClockPort, IsControlPort};
ghost use Rattle.netlist_model.specs.Formed.{IsWellFormed};
ghost use Rattle.netlist_model.specs.Orders.{IsCellOrder};
ghost use Rattle.netlist_arena.specs.Looks.{IsLive, feed_at};
ghost use Rattle.cell_order.specs.Marks.{AddsMarks, AreInputs, FlopReadsAt, IsInConeOf, IsMarked, DrivesMarked, IsRead, IsReadAt, IsReadOfMarked};
ghost use Rattle.cell_order.specs.Tables.{AreFlags};

use crate::room::refill;
use netlist_arena::Netlist;
use netlist_model::{CellId, Feed};

const CLOCK_PLACE: u32 = 1;

const CLEAR_PLACE: u32 = 2;

/// Flags the control ports.
pub(crate) fn flag_controls(
    netlist: &Netlist,
    order: &[CellId],
    inputs: &[bool],
    flags: &mut Vec<bool>,
)
    requires order { IsCellOrder netlist.now.lists order.now }
    requires inputs { AreInputs netlist.now.lists inputs.now }
    requires room { length netlist.now.lists.nets ≤ vec_capacity flags.old }
    ensures flags { AreFlags (IsControlPort netlist.now.lists) flags.new.items }
    ensures capacity { vec_capacity flags.old ≤ vec_capacity flags.new }
{
    refill(flags, netlist.net_count(), false);
    let marks = flags.as_mut_slice();
    mark_operands(netlist, order, CLOCK_PLACE, marks);
    mark_operands(netlist, order, CLEAR_PLACE, marks);
    spread(netlist, order, marks);
    keep_inputs(inputs, marks);
}

/// Flags the clock ports.
pub(crate) fn flag_clocks(
    netlist: &Netlist,
    order: &[CellId],
    inputs: &[bool],
    flags: &mut Vec<bool>,
)
    requires order { IsCellOrder netlist.now.lists order.now }
    requires inputs { AreInputs netlist.now.lists inputs.now }
    requires room { length netlist.now.lists.nets ≤ vec_capacity flags.old }
    ensures flags { AreFlags (IsClockPort netlist.now.lists) flags.new.items }
    ensures capacity { vec_capacity flags.old ≤ vec_capacity flags.new }
{
    refill(flags, netlist.net_count(), false);
    let marks = flags.as_mut_slice();
    mark_operands(netlist, order, CLOCK_PLACE, marks);
    spread(netlist, order, marks);
    keep_inputs(inputs, marks);
}

// Marks the net that each flip-flop reads at a place.
fn mark_operands(netlist: &Netlist, order: &[CellId], place: u32, marks: &mut [bool])
    requires order { IsCellOrder netlist.now.lists order.now }
    requires long { length marks.old ≡ length netlist.now.lists.nets }
    ensures { AddsMarks (FlopReads netlist.now.lists place) marks.old marks.new }
{
    for spot in 0..order.len() {
        mark_operand(netlist, order[spot], place, marks);
    }
}

// Marks the net that a cell reads at a place, if it is a flip-flop.
fn mark_operand(netlist: &Netlist, cell: CellId, place: u32, marks: &mut [bool])
    requires live { IsLive netlist.now.lists cell.0 }
    requires long { length marks.old ≡ length netlist.now.lists.nets }
    ensures { AddsMarks (FlopReadsAt netlist.now.lists cell.0 place) marks.old marks.new }
{
    if netlist.flop(cell).is_some() && place < netlist.feed_count(cell) {
        mark_feed(netlist, cell, place, marks);
    }
}

// Marks the net that a cell reads at a place, if it is one.
fn mark_feed(netlist: &Netlist, cell: CellId, place: u32, marks: &mut [bool])
    requires there { IsSome (feed_at netlist.now.lists cell.0 place) }
    requires long { length marks.old ≡ length netlist.now.lists.nets }
    ensures { AddsMarks (IsReadAt netlist.now.lists cell.0 place) marks.old marks.new }
{
    if let Feed::Net(net) = netlist.feed(cell, place) {
        marks[net.0 as usize] = true;
    }
}

// Marks the cones of the marked nets, from the end of the order.
fn spread(netlist: &Netlist, order: &[CellId], marks: &mut [bool])
    requires order { IsCellOrder netlist.now.lists order.now }
    requires long { length marks.old ≡ length netlist.now.lists.nets }
    ensures long { length marks.new ≡ length marks.old }
    ensures cones { (net : ℕ) → IsMarked marks.new net ↔ IsInConeOf netlist.now.lists marks.old net }
{
    for passed in 0..order.len() {
        let cell = order[order.len() - 1 - passed];
        spread_one(netlist, cell, marks);
    }
}

// Marks what a gate reads, where it drives a marked net.
fn spread_one(netlist: &Netlist, cell: CellId, marks: &mut [bool])
    requires live { IsLive netlist.now.lists cell.0 }
    requires long { length marks.old ≡ length netlist.now.lists.nets }
    ensures { AddsMarks (IsReadOfMarked netlist.now.lists marks.old cell.0) marks.old marks.new }
{
    if netlist.flop(cell).is_some() {
        return;
    }
    if drives_marked(netlist, cell, marks) {
        mark_feeds(netlist, cell, marks);
    }
}

// Whether a cell drives a marked net.
fn drives_marked(netlist: &Netlist, cell: CellId, marks: &[bool]) -> bool
    requires live { IsLive netlist.now.lists cell.0 }
    requires long { length marks.now ≡ length netlist.now.lists.nets }
    ensures { IsTrue result ↔ DrivesMarked netlist.now.lists marks.now cell.0 }
{
    match netlist.output(cell) {
        Some(net) => marks[net.0 as usize],
        None => false,
    }
}

// Marks the nets that a cell reads.
fn mark_feeds(netlist: &Netlist, cell: CellId, marks: &mut [bool])
    requires live { IsLive netlist.now.lists cell.0 }
    requires long { length marks.old ≡ length netlist.now.lists.nets }
    ensures { AddsMarks (IsRead netlist.now.lists cell.0) marks.old marks.new }
{
    for place in 0..netlist.feed_count(cell) {
        mark_feed(netlist, cell, place, marks);
    }
}

// Takes the marks of nets that aren't those of input bits.
fn keep_inputs(inputs: &[bool], marks: &mut [bool])
    requires { length inputs.now ≡ length marks.old }
    ensures long { length marks.new ≡ length marks.old }
    ensures kept { (net : ℕ) → IsMarked marks.new net
        ↔ (IsMarked marks.old net × IsMarked inputs.now net) }
{
    for net in 0..marks.len() {
        marks[net] = marks[net] && inputs[net];
    }
}
