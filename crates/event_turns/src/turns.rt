// The turns of an event, the least first.

ghost use Rattle.std.specs.Prelude.{◌≡◌, ◌≢◌, ◌≤◌, ◌<◌, ◌+◌, ◌*◌, ◌^◌, ◌⊎◌, ℕ, List, length, slice_index, Some};
ghost use Rattle.signal_values.specs.declared.PinSig.{PinSig};
ghost use Rattle.signal_values.specs.declared.Sig.{Sig};
ghost use Rattle.netlist_model.specs.Lists.{CellView, cell_at, direction};
ghost use Rattle.netlist_model.specs.Settled.{pin_rule, pin_value};
ghost use Rattle.netlist_model.specs.Runs.{IsLegal, pins_after};
ghost use Rattle.netlist_settling.specs.Values.{value_at, pin_at};
ghost use Rattle.event_laws.specs.Work.{IsFrontier};
ghost use Rattle.event_parts.specs.QueuesLaws.{IsIn};
ghost use Rattle.event_turns.specs.Circuits.{FitsCircuit, HasRun, HasTurn, IsGateIn, IsInRange, IsUnderWay, TakesValue, Wakes, event_from, place_of, turn_at};
ghost use Rattle.event_turns.specs.Events.{AwaitsEvent, StepsBy};
ghost use Rattle.event_turns.specs.Logs.{Logs, drives_with};

use crate::circuit::{Circuit, Gate};
use crate::pairs::take_place;
use crate::values::{driven, kept_after, pin_at, value_at};
use event_parts::counted_cells::Steps;
use event_parts::queues::TurnQueue;
use netlist_model::{Dir, NetId};
use signal_values::{PinSig, Sig, join, see};
use std::sync::ledger::Ledger;

// Queues what waits on a net.
fn wake(circuit: &Circuit, net: NetId, queue: &mut TurnQueue)
    requires there { net.0 < length circuit.now.lists.nets }
    requires room { 3 * length circuit.now.gates ≤ 64 * length queue.old }
    ensures { Wakes circuit.now net.0 queue.old queue.new }
{
    wake_range(
        circuit.starts.as_slice(),
        circuit.readers.as_slice(),
        net.0 as usize,
        queue,
    );
}

// Queues the turns of a net's range.
fn wake_range(starts: &[usize], readers: &[u32], net: usize, queue: &mut TurnQueue)
    requires there { net + 1 < length starts.now }
    requires rising { slice_index starts.now net ≤ slice_index starts.now (net + 1) }
    requires within { slice_index starts.now (net + 1) ≤ length readers.now }
    requires room { (k : ℕ) → IsInRange starts.now net k
        → slice_index readers.now k < 64 * length queue.old }
    ensures long { length queue.new ≡ length queue.old }
    ensures old { (turn : ℕ) → IsIn queue.old turn → IsIn queue.new turn }
    ensures new { (k : ℕ) → IsInRange starts.now net k → IsIn queue.new (slice_index readers.now k) }
    ensures only { (turn : ℕ) → IsIn queue.new turn → IsIn queue.old turn
        ⊎ ((k : ℕ) × IsInRange starts.now net k × (slice_index readers.now k ≡ turn)) }
{
    for k in starts[net]..starts[net + 1] {
        queue.push(readers[k] as usize);
    }
}

/// Gives a net a value; where that is another, logs the net and queues what waits on it.
#[tactic(auto, using(crate::proofs::Logs::logs_none, crate::proofs::Logs::logs_value))]
pub(crate) fn give(
    circuit: &Circuit,
    net: NetId,
    given: Sig,
    values: &mut [Sig],
    queue: &mut TurnQueue,
    log: &mut TurnQueue,
)
    requires there { net.0 < length circuit.now.lists.nets }
    requires values { length values.old ≡ length circuit.now.lists.nets }
    requires room { 3 * length circuit.now.gates ≤ 64 * length queue.old }
    requires log { length circuit.now.lists.nets ≤ 64 * length log.old }
    ensures taken { TakesValue circuit.now net.0 given values.old values.new queue.old queue.new }
    ensures logs { (drives : List PinSig) → Logs (length circuit.now.lists.nets) values.old values.new
        drives drives log.old log.new }
{
    let place = net.0 as usize;
    if values[place] == given {
        return;
    }
    values[place] = given;
    log.push(place);
    wake(circuit, net, queue);
}

// Keeps what a three-state gate gives its net, and logs the net.
#[tactic(auto, using(crate::proofs::Logs::logs_none, crate::proofs::Logs::logs_drive))]
fn keep_drive(net: NetId, drive: Option<PinSig>, drives: &mut [PinSig], log: &mut TurnQueue)
    requires there { net.0 < length drives.old }
    requires room { length drives.old ≤ 64 * length log.old }
    ensures drives { drives.new ≡ drives_with net.0 drive drives.old }
    ensures logs { (values : List Sig) → Logs (length drives.old) values values drives.old drives.new
        log.old log.new }
{
    if let Some(drive) = drive {
        drives[net.0 as usize] = drive;
        log.push(net.0 as usize);
    }
}

/// Takes the turn of a cell.
pub(crate) fn take_turn<L: Ledger>(
    circuit: &Circuit,
    gate: Gate,
    pins: &[PinSig],
    before: &[Sig],
    values: &mut [Sig],
    state: &mut [Sig],
    drives: &mut [PinSig],
    queue: &mut TurnQueue,
    log: &mut TurnQueue,
    steps: &mut Steps<L>,
)
    requires gate { IsGateIn circuit.now gate }
    requires fits { FitsCircuit circuit.now values.old state.old drives.old queue.old }
    requires log { length circuit.now.lists.nets ≤ 64 * length log.old }
    ensures turn { (cell : CellView) → cell_at circuit.now.lists gate.cell.0 ≡ Some cell
        → HasTurn circuit.now (event_from pins.now before.now state.old) gate.cell.0 cell
        values.old state.old values.new state.new drives.old drives.new queue.old queue.new
        steps.old steps.new }
    ensures logs { Logs (length circuit.now.lists.nets) values.old values.new drives.old drives.new
        log.old log.new }
    ensures state { length state.new ≡ length state.old }
{
    let library = circuit.netlist.library();
    let feeds = &circuit.feeds[gate.first..gate.first + gate.count as usize];
    let number = gate.cell.0 as usize;
    let old = value_at(state, number);
    let kept = kept_after(library, gate.kind, feeds, before, values, old);
    state[number] = kept;
    if let Some(net) = gate.output {
        let place = net.0 as usize;
        let side = circuit.sides[place];
        let outside = pin_at(pins, place);
        let given = driven(
            library, side, gate.kind, feeds, values, kept, outside, steps,
        );
        keep_drive(net, given.drive, drives, log);
        give(circuit, net, given.value, values, queue, log);
    }
}

// The place of the gate that has this turn.
pub(crate) fn place_of(count: usize, turn: usize) -> usize
    requires { count < 2 ^ 32 }
    ensures { result ≡ place_of count turn }
{
    if turn < count {
        turn
    } else if turn < 2 * count {
        turn - count
    } else {
        turn - 2 * count
    }
}

// Takes the turns of an event until none is queued.
fn run<L: Ledger>(
    circuit: &Circuit,
    pins: &[PinSig],
    before: &[Sig],
    values: &mut [Sig],
    state: &mut [Sig],
    drives: &mut [PinSig],
    queue: &mut TurnQueue,
    log: &mut TurnQueue,
    first: usize,
    steps: &mut Steps<L>,
)
    requires small { length circuit.now.gates < 2 ^ 32 }
    requires begun { IsUnderWay circuit.now (event_from pins.now before.now state.old) values.old state.old
        drives.old queue.old first 0 }
    requires log { length circuit.now.lists.nets ≤ 64 * length log.old }
    ensures done { HasRun circuit.now (event_from pins.now before.now state.old) values.new state.new
        drives.new queue.new steps.old steps.new }
    ensures logs { Logs (length circuit.now.lists.nets) values.old values.new drives.old drives.new
        log.old log.new }
    ensures state { length state.new ≡ length state.old }
{
    let count = circuit.gates.len();
    let mut from = first;
    for passed in 0..3 * count {
        let Some(turn) = queue.pop(from) else {
            return;
        };
        let place = place_of(count, turn);
        take_place(
            circuit, place, pins, before, values, state, drives, queue, log, steps,
        );
        from = turn + 1;
    }
}

// What the net of an event sees, where its pin takes this value.
fn given_at(circuit: &Circuit, net: NetId, value: PinSig, drives: &[PinSig]) -> Sig
    requires there { net.0 < length circuit.now.lists.nets }
    ensures { result ≡ pin_value (direction circuit.now.lists.ports net.0) (pin_at drives.now net.0) value }
{
    match circuit.sides[net.0 as usize] {
        Some(Dir::Inout) => see(join(pin_at(drives, net.0 as usize), value)),
        Some(Dir::Input) | Some(Dir::Output) | None => see(value),
    }
}

// Steps by an event whose net sees this value, with the turns to come from `first` on.
fn step_from<L: Ledger>(
    circuit: &Circuit,
    net: NetId,
    value: PinSig,
    given: Sig,
    pins: &mut [PinSig],
    before: &[Sig],
    values: &mut [Sig],
    state: &mut [Sig],
    drives: &mut [PinSig],
    queue: &mut TurnQueue,
    log: &mut TurnQueue,
    first: usize,
    steps: &mut Steps<L>,
)
    requires legal { IsLegal circuit.now.lists (record { net = net.0; value = value }) }
    requires there { net.0 < length circuit.now.lists.nets }
    requires given { given ≡ pin_rule circuit.now.lists (pins_after (pin_at pins.old)
        (record { net = net.0; value = value })) (value_at values.old) net.0 }
    requires before { before.now ≡ values.old }
    requires awaits { AwaitsEvent circuit.now pins.old values.old state.old drives.old queue.old
        log.old }
    requires frontier { IsFrontier circuit.now.lists (turn_at circuit.now.turns) net.0 first }
    ensures stepped { StepsBy circuit.now.lists (record { net = net.0; value = value })
        pins.old pins.new values.old values.new state.old state.new steps.old steps.new }
    ensures awaits { AwaitsEvent circuit.now pins.new values.new state.new drives.new queue.new
        log.new }
    ensures logs { Logs (length circuit.now.lists.nets) values.old values.new drives.old drives.new
        log.old log.new }
    ensures own { IsIn log.new net.0 }
{
    circuit.are_tables();
    pins[net.0 as usize] = value;
    log.push(net.0 as usize);
    give(circuit, net, given, values, queue, log);
    run(
        circuit, pins, before, values, state, drives, queue, log, first, steps,
    );
}

/// Steps by an event that gives the pin of a net a value, from rest to rest.
pub fn step<L: Ledger>(
    circuit: &Circuit,
    net: NetId,
    value: PinSig,
    pins: &mut [PinSig],
    before: &[Sig],
    values: &mut [Sig],
    state: &mut [Sig],
    drives: &mut [PinSig],
    queue: &mut TurnQueue,
    log: &mut TurnQueue,
    steps: &mut Steps<L>,
)
    requires legal { IsLegal circuit.now.lists (record { net = net.0; value = value }) }
    requires there { net.0 < length circuit.now.lists.nets }
    requires before { before.now ≡ values.old }
    requires awaits { AwaitsEvent circuit.now pins.old values.old state.old drives.old queue.old
        log.old }
    ensures stepped { StepsBy circuit.now.lists (record { net = net.0; value = value })
        pins.old pins.new values.old values.new state.old state.new steps.old steps.new }
    ensures awaits { AwaitsEvent circuit.now pins.new values.new state.new drives.new queue.new
        log.new }
    ensures logs { Logs (length circuit.now.lists.nets) values.old values.new drives.old drives.new
        log.old log.new }
    ensures own { IsIn log.new net.0 }
{
    circuit.are_tables();
    let given = given_at(circuit, net, value, drives);
    let first = circuit.firsts[net.0 as usize] as usize;
    step_from(
        circuit, net, value, given, pins, before, values, state, drives, queue, log, first, steps,
    );
}
