// The cells of a netlist in their order, with their operands in one list.

ghost use Rattle.std.specs.Prelude.{◌≡◌, ◌≤◌, ◌++◌, ◌∷◌, [], Some, IfOk, OnOk, length};
ghost use Rattle.netlist_model.specs.Lists.{CellView, cell_at};
ghost use Rattle.netlist_model.specs.Orders.{IsCellOrder};
ghost use Rattle.netlist_arena.specs.Looks.{IsLive};
ghost use Rattle.netlist_settling.specs.Values.{feeds_of};
ghost use Rattle.event_turns.specs.Tables.{AreGates, gate_of};

use crate::circuit::Gate;
use netlist_arena::Netlist;
use netlist_model::{CellId, Feed};
use std::alloc::Global;
use texts::OutOfMemory;

/// The cells in their order, and their operands.
#[derive(Drop)]
pub(crate) struct Placed {
    pub(crate) gates: Vec<Gate>,
    pub(crate) feeds: Vec<Feed>,
}

/// The cells of an order.
pub(crate) fn gates_of(
    alloc: Global,
    netlist: &Netlist,
    order: &[CellId],
) -> Result<Placed, OutOfMemory>
    requires { IsCellOrder netlist.now.lists order.now }
    ensures { IfOk result (λ placed. AreGates netlist.now.lists order.now (length order.now)
        placed.gates.items placed.feeds.items) }
{
    let mut gates = Vec::new(alloc);
    let mut feeds = Vec::new(alloc);
    for cell in order {
        add_gate(netlist, *cell, &mut gates, &mut feeds)?;
    }
    Ok(Placed { gates, feeds })
}

// Adds a cell and its operands.
fn add_gate(
    netlist: &Netlist,
    cell: CellId,
    gates: &mut Vec<Gate>,
    feeds: &mut Vec<Feed>,
) -> Result<(), OutOfMemory>
    requires { IsLive netlist.now.lists cell.0 }
    ensures few { (found : CellView) → cell_at netlist.now.lists cell.0 ≡ Some found
        → length found.feeds ≤ 256 }
    ensures feeds { OnOk result (feeds.new.items
        ≡ feeds.old.items ++ feeds_of (cell_at netlist.now.lists cell.0)) }
    ensures gates { OnOk result ((found : CellView) → cell_at netlist.now.lists cell.0 ≡ Some found
        → gates.new.items ≡ gates.old.items ++ gate_of cell (length feeds.old.items) found ∷ []) }
{
    let gate = Gate {
        cell,
        kind: netlist.kind(cell),
        first: feeds.len(),
        count: netlist.feed_count(cell),
        output: netlist.output(cell),
    };
    add_feeds(netlist, cell, feeds)?;
    gates.push(gate)?;
    Ok(())
}

// Adds the operands of a cell.
fn add_feeds(netlist: &Netlist, cell: CellId, feeds: &mut Vec<Feed>) -> Result<(), OutOfMemory>
    requires { IsLive netlist.now.lists cell.0 }
    ensures { OnOk result (feeds.new.items
        ≡ feeds.old.items ++ feeds_of (cell_at netlist.now.lists cell.0)) }
{
    for place in 0..netlist.feed_count(cell) {
        feeds.push(netlist.feed(cell, place))?;
    }
    Ok(())
}
