// The live cells of a netlist under numbers without gaps.

ghost use Rattle.std.specs.Prelude.{◌≡◌, ◌≤◌, ◌<◌, ℕ, length, map, option_map, vec_capacity, Some, IsSome, MatchOption, ⊤};
ghost use Rattle.cell_library.specs.Gates.{flop_of};
ghost use Rattle.netlist_model.specs.Lists.{CellView, cell_at, cell_count};
ghost use Rattle.netlist_model.specs.Below.{IsFeedBelow, IsNetBelow};
ghost use Rattle.netlist_model.specs.Formed.{IsLaidOut};
ghost use Rattle.netlist_model.specs.Orders.{IsCellOrder, StandsAt};
ghost use Rattle.netlist_arena.specs.Looks.{IsDrivenOnce, IsLive, feed_at};
ghost use Rattle.cell_order.specs.Packed.{AreLiveCells, cell_under, packed};
ghost use Rattle.cell_order.specs.Walk.{HasWalkRoom, IsClosed, KeepsRoom};

use crate::drivers::note_drivers;
use crate::order::order_cells;
use crate::room::push_reserved;
use crate::walk::Walk;
use cell_library::FlopKind;
use netlist_arena::Netlist;
use netlist_model::{CellId, Feed, NetId};
use std::marker::Model;

/// A netlist whose live cells have the numbers from 0, as they stand in a list.
#[derive(Drop)]
pub(crate) struct Packed<'a> {
    netlist: &'a Netlist,
    cells: &'a [CellId],
}

impl<'a> Model for Packed<'a> {
    ghost use Rattle.std.specs.Prelude.{◌≡◌, length};
    ghost use Rattle.netlist_model.specs.Lists.{cell_count};
    ghost use Rattle.cell_order.specs.Packed.{PackedView, AreLiveCells, packed};

    ghost Value = { PackedView };

    ghost view = { λ p. record { lists = packed p.netlist.now.lists p.cells.now } };

    ghost invariant = { λ p. record {
      all : AreLiveCells p.netlist.now.lists p.cells.now;
      count : length p.cells.now ≡ cell_count p.netlist.now.lists;
    } };
}

impl<'a> Packed<'a> {
    /// The netlist under the numbers of a list that has each live cell once.
    pub(crate) fn new(netlist: &'a Netlist, cells: &'a [CellId]) -> Packed<'a>
        requires all { AreLiveCells netlist.now.lists cells.now }
        requires count { length cells.now ≡ cell_count netlist.now.lists }
        ensures { result.lists ≡ packed netlist.now.lists cells.now }
    {
        Packed { netlist, cells }
    }

    pub(crate) fn cell_count(&self) -> u32
        ensures { result ≡ cell_count self.now.lists }
    {
        self.netlist.cell_count()
    }

    pub(crate) fn flop(&self, cell: CellId) -> Option<FlopKind>
        requires { IsLive self.now.lists cell.0 }
        ensures { option_map (λ (found : CellView). flop_of self.now.lists.library found.kind) (cell_at self.now.lists cell.0)
            ≡ Some result }
    {
        self.netlist.flop(number_of(self.netlist, self.cells, cell))
    }

    pub(crate) fn output(&self, cell: CellId) -> Option<NetId>
        requires { IsLive self.now.lists cell.0 }
        ensures value { option_map (λ (found : CellView). found.output) (cell_at self.now.lists cell.0)
            ≡ Some result }
        ensures below { MatchOption result ⊤ (IsNetBelow (length self.now.lists.nets)) }
    {
        self.netlist
            .output(number_of(self.netlist, self.cells, cell))
    }

    pub(crate) fn feed_count(&self, cell: CellId) -> u32
        requires { IsLive self.now.lists cell.0 }
        ensures few { result ≤ 256 }
        ensures count { option_map (λ (found : CellView). length found.feeds)
            (cell_at self.now.lists cell.0) ≡ Some result }
    {
        self.netlist
            .feed_count(number_of(self.netlist, self.cells, cell))
    }

    pub(crate) fn feed(&self, cell: CellId, place: u32) -> Feed
        requires { IsSome (feed_at self.now.lists cell.0 place) }
        ensures value { feed_at self.now.lists cell.0 place ≡ Some result }
        ensures below { IsFeedBelow (length self.now.lists.nets) result }
    {
        self.netlist
            .feed(number_of(self.netlist, self.cells, cell), place)
    }

    pub(crate) fn net_count(&self) -> u32
        ensures { result ≡ length self.now.lists.nets }
    {
        self.netlist.net_count()
    }

    /// Does nothing: each net that is named is there, and no net has two drivers.
    pub(crate) fn is_laid_out(&self)
        ensures laid_out { IsLaidOut self.now.lists }
        ensures driven_once { IsDrivenOnce self.now.lists }
    {
        self.netlist.is_laid_out();
    }
}

// The number of a cell in the netlist.
#[tactic(auto, using(crate::proofs::PackedNetlist::packed_inside, crate::proofs::PackedNetlist::packed_cell))]
fn number_of(netlist: &Netlist, cells: &[CellId], cell: CellId) -> CellId
    requires { IsLive (packed netlist.now.lists cells.now) cell.0 }
    ensures { cell_at netlist.now.lists result.0 ≡ cell_at (packed netlist.now.lists cells.now) cell.0 }
{
    cells[cell.0 as usize]
}

// Lists the live cells by rising number.
fn note_cells(netlist: &Netlist, cells: &mut Vec<CellId>)
    requires room { cell_count netlist.now.lists ≤ vec_capacity cells.old }
    ensures all { AreLiveCells netlist.now.lists cells.new.items }
    ensures count { length cells.new.items ≡ cell_count netlist.now.lists }
    ensures capacity { vec_capacity cells.old ≤ vec_capacity cells.new }
{
    cells.clear();
    for number in 0..netlist.cell_bound() {
        if netlist.is_live(CellId(number)) {
            push_reserved(cells, CellId(number));
        }
    }
}

/// Orders the cells of a netlist, or answers a cell of a path that closes there.
pub(crate) fn search(
    netlist: &Netlist,
    live: &mut Vec<CellId>,
    drivers: &mut Vec<Option<CellId>>,
    walk: &mut Walk,
) -> Option<CellId>
    requires live { cell_count netlist.now.lists ≤ vec_capacity live.old }
    requires drivers { length netlist.now.lists.nets ≤ vec_capacity drivers.old }
    requires walk { HasWalkRoom (cell_count netlist.now.lists) walk.old }
    ensures found { MatchOption result (IsCellOrder netlist.now.lists walk.new.order.items)
        (λ on. IsClosed netlist.now.lists walk.new.path.items on.0) }
    ensures live_room { vec_capacity live.old ≤ vec_capacity live.new }
    ensures driver_room { vec_capacity drivers.old ≤ vec_capacity drivers.new }
    ensures walk_room { KeepsRoom walk.old walk.new }
{
    note_cells(netlist, live);
    let cells = live.as_slice();
    let packed = Packed::new(netlist, cells);
    note_drivers(&packed, drivers);
    match order_cells(&packed, drivers.as_slice(), walk) {
        None => {
            unpack(walk.order.as_mut_slice(), cells);
            None
        }
        Some(on) => {
            unpack(walk.path.as_mut_slice(), cells);
            Some(cells[on.0 as usize])
        }
    }
}

// Puts in place of each number that which the list has under it.
fn unpack(order: &mut [CellId], cells: &[CellId])
    requires { (place number : ℕ) → StandsAt order.old place number → number < length cells.now }
    ensures { order.new ≡ map (cell_under cells.now) order.old }
{
    for id in order.iter_mut() {
        *id = cells[id.0 as usize];
    }
}
