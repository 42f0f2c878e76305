// The turns of cells: gates behind which no flip-flop stands come first, then flip-flops, then the other gates.

ghost use Rattle.std.specs.Prelude.{◌≡◌, ◌<◌, ◌≤◌, ◌+◌, ◌^◌, IfOk, length, slice_set};
ghost use Rattle.netlist_model.specs.Formed.{IsWellFormed};
ghost use Rattle.netlist_model.specs.Orders.{IsCellOrder};
ghost use Rattle.event_laws.specs.OrderLaws.{has_late};
ghost use Rattle.event_turns.specs.Tables.{AreGates, AreTurned, IsBelow, class_by, feed_late, gate_late, gate_turn, late_at, with_net};

use crate::circuit::Gate;
use cell_library::{Library, is_flop};
use netlist_arena::Netlist;
use netlist_model::{CellId, Feed, NetId};
use std::alloc::Global;
use texts::OutOfMemory;

/// The turn of each cell by its number, and of each net the turn after that of its driver.
#[derive(Drop)]
pub(crate) struct Turned {
    pub(crate) turns: Vec<u32>,
    pub(crate) firsts: Vec<u32>,
}

/// The turns of the cells of an order.
pub(crate) fn turns_of(
    alloc: Global,
    netlist: &Netlist,
    order: &[CellId],
    gates: &[Gate],
    feeds: &[Feed],
) -> Result<Turned, OutOfMemory>
    requires formed { IsWellFormed netlist.now.lists }
    requires order { IsCellOrder netlist.now.lists order.now }
    requires gates { AreGates netlist.now.lists order.now (length order.now) gates.now feeds.now }
    requires few { length order.now < 2 ^ 30 }
    ensures { IfOk result (λ turned. AreTurned netlist.now.lists order.now turned.turns.items
        turned.firsts.items) }
{
    netlist.is_laid_out();
    let nets = netlist.net_count() as usize;
    let mut late = vec![in alloc; false; nets]?;
    let mut turns = vec![in alloc; 0; netlist.cell_bound() as usize]?;
    let mut firsts = vec![in alloc; 0; nets]?;
    for place in 0..order.len() {
        note_turn(
            netlist.library(),
            gates[place],
            place as u32,
            order.len() as u32,
            feeds,
            late.as_mut_slice(),
            turns.as_mut_slice(),
            firsts.as_mut_slice(),
        );
    }
    Ok(Turned { turns, firsts })
}

// Notes the turn of a cell, and of its net whether it is late and the turn after.
fn note_turn(
    library: &Library,
    gate: Gate,
    place: u32,
    count: u32,
    feeds: &[Feed],
    late: &mut [bool],
    turns: &mut [u32],
    firsts: &mut [u32],
)
    requires place { place < count }
    requires few { count < 2 ^ 30 }
    requires feeds { gate.first + gate.count ≤ length feeds.now }
    requires turns { gate.cell.0 < length turns.old }
    requires late { IsBelow (length late.old) gate.output }
    requires firsts { IsBelow (length firsts.old) gate.output }
    ensures turns { turns.new ≡ slice_set turns.old gate.cell.0
        (gate_turn library.now feeds.now (late_at late.old) gate place count) }
    ensures late { late.new ≡ with_net gate.output
        (gate_late library.now feeds.now (late_at late.old) gate) late.old }
    ensures firsts { firsts.new ≡ with_net gate.output
        (gate_turn library.now feeds.now (late_at late.old) gate place count + 1) firsts.old }
{
    let behind = has_late(&feeds[gate.first..gate.first + gate.count as usize], late);
    let flop = is_flop(library, gate.kind);
    let turn = class_by(flop, behind) * count + place;
    turns[gate.cell.0 as usize] = turn;
    if let Some(net) = gate.output {
        late[net.0 as usize] = flop || behind;
        firsts[net.0 as usize] = turn + 1;
    }
}

// 1 of a flip-flop, 2 of a gate with a late operand, 0 of any other.
fn class_by(flop: bool, behind: bool) -> u32
    ensures value { result ≡ class_by flop behind }
    ensures few { result ≤ 2 }
{
    if flop {
        1
    } else if behind {
        2
    } else {
        0
    }
}

// Whether some operand is a late net.
fn has_late(feeds: &[Feed], late: &[bool]) -> bool
    ensures { result ≡ has_late (late_at late.now) feeds.now }
{
    for feed in feeds {
        if is_late(*feed, late) {
            return true;
        }
    }
    false
}

// Whether an operand is a late net.
fn is_late(feed: Feed, late: &[bool]) -> bool
    ensures { result ≡ feed_late (late_at late.now) feed }
{
    match feed {
        Feed::Net(net) => late_at(late, net),
        Feed::Const(_) => false,
    }
}

// Whether a net is late; none past the end is.
fn late_at(late: &[bool], net: NetId) -> bool
    ensures { result ≡ late_at late.now net.0 }
{
    match late.get(net.0 as usize) {
        Some(flag) => *flag,
        None => false,
    }
}
