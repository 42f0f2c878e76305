// What waits on each net: the turns of gates that read it, and of flip-flops with their clock, clear or preset there.

ghost use Rattle.std.specs.Prelude.{◌≡◌, ◌<◌, ◌+◌, ℕ, IfOk, OnOk, length, slice_get, slice_index, Some};
ghost use Rattle.netlist_model.specs.declared.CellId.{CellId};
ghost use Rattle.netlist_model.specs.Orders.{IsCellOrder};
ghost use Rattle.netlist_arena.specs.Looks.{IsLive};
ghost use Rattle.event_turns.specs.Circuits.{AreReaders, turn_at};
ghost use Rattle.event_turns.specs.Tables.{AreOwnersAt, AreWaits, waited};

use event_parts::keys::{Ranges, ranges_of};
use netlist_arena::Netlist;
use netlist_model::{CellId, Feed};
use std::alloc::Global;
use texts::OutOfMemory;

/// The turns of what waits on net n stand from starts[n] to starts[n + 1].
#[derive(Drop)]
pub(crate) struct Readers {
    pub(crate) starts: Vec<usize>,
    pub(crate) readers: Vec<u32>,
}

// Of each operand the net on which its cell waits there, if there is one, and the turn of the cell.
#[derive(Drop)]
struct Waits {
    keys: Vec<Option<u32>>,
    owners: Vec<u32>,
}

/// What waits on each net. A netlist with 2 ^ 32 operands or more is refused.
pub(crate) fn readers_of(
    alloc: Global,
    netlist: &Netlist,
    order: &[CellId],
    turns: &[u32],
) -> Result<Readers, OutOfMemory>
    requires order { IsCellOrder netlist.now.lists order.now }
    requires turns { (number : ℕ) → IsLive netlist.now.lists number → number < length turns.now }
    ensures { IfOk result (λ made. AreReaders netlist.now.lists turns.now made.starts.items
        made.readers.items) }
{
    netlist.is_laid_out();
    let waits = waits_of(alloc, netlist, order, turns)?;
    if waits.keys.len() > u32::MAX as usize {
        return Err(OutOfMemory);
    }
    let Ranges { starts, places } = ranges_of(
        alloc,
        waits.keys.as_slice(),
        netlist.net_count() as usize,
    )?;
    let readers = owners_at(alloc, places.as_slice(), waits.owners.as_slice())?;
    Ok(Readers { starts, readers })
}

// What each operand waits on.
fn waits_of(
    alloc: Global,
    netlist: &Netlist,
    order: &[CellId],
    turns: &[u32],
) -> Result<Waits, OutOfMemory>
    requires order { IsCellOrder netlist.now.lists order.now }
    requires turns { (number : ℕ) → IsLive netlist.now.lists number → number < length turns.now }
    ensures { IfOk result (λ waits. AreWaits netlist.now.lists order.now turns.now waits.keys.items
        waits.owners.items (length order.now) 0) }
{
    let mut keys = Vec::new(alloc);
    let mut owners = Vec::new(alloc);
    for place in 0..order.len() {
        let turn = turns[order[place].0 as usize];
        add_waits(netlist, order, turns, place, turn, &mut keys, &mut owners)?;
    }
    Ok(Waits { keys, owners })
}

// Adds the operands of the cell in a place.
fn add_waits(
    netlist: &Netlist,
    order: &[CellId],
    turns: &[u32],
    place: usize,
    turn: u32,
    keys: &mut Vec<Option<u32>>,
    owners: &mut Vec<u32>,
) -> Result<(), OutOfMemory>
    requires order { IsCellOrder netlist.now.lists order.now }
    requires place { place < length order.now }
    requires turn { (cell : CellId) → slice_get order.now place ≡ Some cell → turn ≡ turn_at turns.now cell.0 }
    requires so_far { AreWaits netlist.now.lists order.now turns.now keys.old.items owners.old.items
        place 0 }
    ensures { OnOk result (AreWaits netlist.now.lists order.now turns.now keys.new.items
        owners.new.items (place + 1) 0) }
{
    let cell = order[place];
    let flop = netlist.flop(cell).is_some();
    for operand in 0..netlist.feed_count(cell) {
        keys.push(waited(flop, operand, netlist.feed(cell, operand)))?;
        owners.push(turn)?;
    }
    Ok(())
}

// The net on which a cell waits by an operand: a flip-flop by its clock, which is 1, and its clear or
// preset, which is 2.
fn waited(flop: bool, operand: u32, feed: Feed) -> Option<u32>
    ensures { result ≡ waited flop operand feed }
{
    match feed {
        Feed::Net(net) => {
            if !flop || operand == 1 || operand == 2 {
                Some(net.0)
            } else {
                None
            }
        }
        Feed::Const(_) => None,
    }
}

// The owners of these operands.
fn owners_at(alloc: Global, places: &[u32], owners: &[u32]) -> Result<Vec<u32>, OutOfMemory>
    ensures { IfOk result (λ readers. AreOwnersAt places.now owners.now readers.items) }
{
    let mut readers = Vec::new(alloc);
    for place in places {
        readers.push(owner_at(owners, *place as usize))?;
    }
    Ok(readers)
}

// The owner of an operand, 0 past the end.
fn owner_at(owners: &[u32], place: usize) -> u32
    ensures { result ≡ slice_index owners.now place }
{
    match owners.get(place) {
        Some(owner) => *owner,
        None => 0,
    }
}
