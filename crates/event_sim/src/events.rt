// An event from rest to rest, with its count and what it notes.

ghost use Rattle.std.specs.Prelude.{◌≡◌, ◌<◌, length};
ghost use Rattle.netlist_model.specs.Runs.{IsLegal};
ghost use Rattle.event_turns.specs.Events.{StepsBy, moment_at};
ghost use Rattle.event_sim.specs.Shown.{NotesReadings};
ghost use Rattle.event_sim.specs.Sims.{HasRoom, IsBetweenEvents};

use crate::changes::empty_log;
use event_parts::counted_cells::Steps;
use event_parts::queues::TurnQueue;
use event_turns::{Circuit, step};
use netlist_model::NetId;
use signal_values::{PinSig, Sig};
use std::sync::ledger::Ledger;

/// Steps by an event, and notes the shown bits that read another value than before.
pub(crate) fn take_event<L: Ledger>(
    circuit: &Circuit,
    places: &[Option<u32>],
    net: NetId,
    value: PinSig,
    pins: &mut [PinSig],
    before: &mut [Sig],
    values: &mut [Sig],
    state: &mut [Sig],
    drives: &mut [PinSig],
    queue: &mut TurnQueue,
    log: &mut TurnQueue,
    changed: &mut TurnQueue,
    steps: &mut Steps<L>,
)
    requires legal { IsLegal circuit.now.lists (record { net = net.0; value = value }) }
    requires there { net.0 < length circuit.now.lists.nets }
    requires between { IsBetweenEvents circuit.now pins.old before.old values.old state.old drives.old
        queue.old log.old }
    requires room { HasRoom places.now changed.old }
    ensures between { IsBetweenEvents circuit.now pins.new before.new values.new state.new drives.new
        queue.new log.new }
    ensures stepped { StepsBy circuit.now.lists (record { net = net.0; value = value })
        pins.old pins.new values.old values.new state.old state.new steps.old steps.new }
    ensures log_long { length log.new ≡ length log.old }
    ensures noted { NotesReadings circuit.now.lists places.now (moment_at pins.old values.old state.old)
        (moment_at pins.new values.new state.new) changed.old changed.new }
{
    step(
        circuit, net, value, pins, before, values, state, drives, queue, log, steps,
    );
    empty_log(values, places, before, log, changed);
}
