// The turns of gates of two nets, which most cells are: a look at a row, at two nets and into a table.

ghost use Rattle.std.specs.Prelude.{◌≡◌, ◌≤◌, ◌<◌, ◌+◌, ◌*◌, ◌∷◌, [], List, length, slice_get, Some};
ghost use Rattle.signal_values.specs.declared.PinSig.{PinSig};
ghost use Rattle.cell_library.specs.declared.Kind.{Kind};
ghost use Rattle.cell_library.specs.Gates.{gate_output};
ghost use Rattle.event_parts.specs.Pairs.{IsPair};
ghost use Rattle.netlist_model.specs.Lists.{CellView, cell_at};
ghost use Rattle.netlist_settling.specs.Values.{value_at};
ghost use Rattle.event_turns.specs.declared.circuit.Gate.{Gate};
ghost use Rattle.event_turns.specs.Circuits.{FitsCircuit, HasTurn, TakesValue, event_from};
ghost use Rattle.event_turns.specs.Logs.{Logs};

use crate::circuit::{Circuit, Row};
use crate::turns::{give, take_turn};
use crate::values::value_at;
use event_parts::counted_cells::{Pair, Steps, eval_pair_step};
use event_parts::queues::TurnQueue;
use signal_values::{PinSig, Sig};
use std::sync::ledger::Ledger;

/// Takes the turn of the cell in a place.
pub(crate) fn take_place<L: Ledger>(
    circuit: &Circuit,
    place: usize,
    pins: &[PinSig],
    before: &[Sig],
    values: &mut [Sig],
    state: &mut [Sig],
    drives: &mut [PinSig],
    queue: &mut TurnQueue,
    log: &mut TurnQueue,
    steps: &mut Steps<L>,
)
    requires there { place < length circuit.now.gates }
    requires fits { FitsCircuit circuit.now values.old state.old drives.old queue.old }
    requires log { length circuit.now.lists.nets ≤ 64 * length log.old }
    ensures turn { (gate : Gate) (cell : CellView) → slice_get circuit.now.gates place ≡ Some gate
        → cell_at circuit.now.lists gate.cell.0 ≡ Some cell
        → HasTurn circuit.now (event_from pins.now before.now state.old) gate.cell.0 cell
        values.old state.old values.new state.new drives.old drives.new queue.old queue.new
        steps.old steps.new }
    ensures logs { Logs (length circuit.now.lists.nets) values.old values.new drives.old drives.new
        log.old log.new }
    ensures state { length state.new ≡ length state.old }
{
    circuit.are_tables();
    let row = circuit.rows[place];
    match row.pair {
        Some(pair) => take_pair(circuit, row, pair, values, queue, log, steps),
        None => {
            let gate = circuit.gates[place];
            take_turn(
                circuit, gate, pins, before, values, state, drives, queue, log, steps,
            );
        }
    }
}

// Takes the turn of a gate of two nets.
fn take_pair<L: Ledger>(
    circuit: &Circuit,
    row: Row,
    pair: Pair,
    values: &mut [Sig],
    queue: &mut TurnQueue,
    log: &mut TurnQueue,
    steps: &mut Steps<L>,
)
    requires there { row.net.0 < length circuit.now.lists.nets }
    requires values { length values.old ≡ length circuit.now.lists.nets }
    requires room { 3 * length circuit.now.gates ≤ 64 * length queue.old }
    requires log { length circuit.now.lists.nets ≤ 64 * length log.old }
    ensures taken { (kind : Kind) → IsPair circuit.now.lists.library kind pair
        → TakesValue circuit.now row.net.0 (gate_output circuit.now.lists.library kind
        (value_at values.old row.a.0 ∷ value_at values.old row.b.0 ∷ [])) values.old values.new
        queue.old queue.new }
    ensures logs { (drives : List PinSig) → Logs (length circuit.now.lists.nets) values.old values.new
        drives drives log.old log.new }
    ensures step { steps.new ≡ steps.old + 1 }
{
    let a = value_at(values, row.a.0 as usize);
    let b = value_at(values, row.b.0 as usize);
    let value = eval_pair_step(&circuit.tables, pair, a, b, steps);
    give(circuit, row.net, value, values, queue, log);
}
