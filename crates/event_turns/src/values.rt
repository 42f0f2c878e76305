// What a cell keeps and gives, from its operands. Each evaluation of a gate is counted.

ghost use Rattle.std.specs.Prelude.{◌≡◌, ◌≤◌, ◌+◌, true, length, take, Some, IsTrue};
ghost use Rattle.signal_values.specs.declared.Sig.TheVariants.{Unknown};
ghost use Rattle.cell_library.specs.Gates.{Takes, is_flop, is_two_state, is_three_state, gate_output, operand};
ghost use Rattle.cell_library.specs.Flops.{flop_next};
ghost use Rattle.event_turns.specs.Values.{seen};
ghost use Rattle.netlist_model.specs.Settled.{feed_value, feed_values, cell_drive};
ghost use Rattle.netlist_settling.specs.Values.{value_at, pin_at};
ghost use Rattle.netlist_settling.specs.Passes.{driven_value};
ghost use Rattle.netlist_model.specs.LawsRuns.{kind_next};
ghost use Rattle.event_laws.specs.Laws.{steps_of};

use cell_library::{FlopKind, Kind, Library, flop_next, flop_of, is_flop};
use event_parts::counted_cells::{Steps, eval_pin_step, eval_step};
use netlist_model::{Dir, Feed};
use signal_values::{PinSig, Sig, join, see};
use std::sync::ledger::Ledger;

/// The value with this number, which is unknown past the end.
pub(crate) fn value_at(values: &[Sig], number: usize) -> Sig
    ensures { result ≡ value_at values.now number }
{
    match values.get(number) {
        Some(value) => *value,
        None => Sig::Unknown,
    }
}

/// The pin of this net, which is unknown past the end.
pub(crate) fn pin_at(pins: &[PinSig], net: usize) -> PinSig
    ensures { result ≡ pin_at pins.now net }
{
    match pins.get(net) {
        Some(pin) => *pin,
        None => PinSig::Unknown,
    }
}

// The value of an operand.
fn value_of(values: &[Sig], feed: Feed) -> Sig
    ensures { result ≡ feed_value (value_at values.now) feed }
{
    match feed {
        Feed::Net(net) => value_at(values, net.0 as usize),
        Feed::Const(true) => Sig::One,
        Feed::Const(false) => Sig::Zero,
    }
}

/// The value of the operand at a place, which is unknown past the end.
pub(crate) fn operand_of(values: &[Sig], feeds: &[Feed], place: usize) -> Sig
    ensures { result ≡ operand (feed_values (value_at values.now) feeds.now) place }
{
    match feeds.get(place) {
        Some(feed) => value_of(values, *feed),
        None => Sig::Unknown,
    }
}

// What a gate that always drives gives.
fn gate_value<L: Ledger>(
    library: &Library,
    kind: Kind,
    feeds: &[Feed],
    values: &[Sig],
    steps: &mut Steps<L>,
) -> Sig
    requires two_state { IsTrue (is_two_state library.now kind) }
    requires takes { Takes library.now kind (length feeds.now) }
    requires few { length feeds.now ≤ 256 }
    ensures value { result ≡ gate_output library.now kind (feed_values (value_at values.now) feeds.now) }
    ensures step { steps.new ≡ steps.old + 1 }
{
    match feeds {
        [a] => eval_step(library, kind, &[value_of(values, *a)], steps),
        [a, b] => {
            let inputs = [value_of(values, *a), value_of(values, *b)];
            eval_step(library, kind, &inputs, steps)
        }
        _ => wide_value(library, kind, feeds, values, steps),
    }
}

// The same of any count of operands. (In a function of its own, since a function pays at entry for its locals.)
fn wide_value<L: Ledger>(
    library: &Library,
    kind: Kind,
    feeds: &[Feed],
    values: &[Sig],
    steps: &mut Steps<L>,
) -> Sig
    requires two_state { IsTrue (is_two_state library.now kind) }
    requires takes { Takes library.now kind (length feeds.now) }
    requires few { length feeds.now ≤ 256 }
    ensures value { result ≡ gate_output library.now kind (feed_values (value_at values.now) feeds.now) }
    ensures step { steps.new ≡ steps.old + 1 }
{
    let mut buffer = [Sig::Unknown; 256];
    gather(feeds, values, &mut buffer);
    eval_step(library, kind, &buffer[..feeds.len()], steps)
}

// Puts the values of operands in order at the front of a buffer.
fn gather(feeds: &[Feed], values: &[Sig], buffer: &mut [Sig])
    requires { length feeds.now ≤ length buffer.old }
    ensures long { length buffer.new ≡ length buffer.old }
    ensures front { take (length feeds.now) buffer.new ≡ feed_values (value_at values.now) feeds.now }
{
    for place in 0..feeds.len() {
        buffer[place] = value_of(values, feeds[place]);
    }
}

/// What a cell keeps after the event, from the nets before it and as they are.
pub(crate) fn kept_after(
    library: &Library,
    kind: Kind,
    feeds: &[Feed],
    before: &[Sig],
    values: &[Sig],
    kept: Sig,
) -> Sig
    ensures { result ≡ kind_next library.now kind (feed_values (value_at before.now) feeds.now)
        (feed_values (value_at values.now) feeds.now) kept }
{
    match flop_of(library, kind) {
        Some(flop) => flop_after(flop, feeds, before, values, kept),
        None => kept,
    }
}

fn flop_after(flop: FlopKind, feeds: &[Feed], before: &[Sig], values: &[Sig], kept: Sig) -> Sig
    ensures { result ≡ flop_next flop (feed_values (value_at before.now) feeds.now)
        (feed_values (value_at values.now) feeds.now) kept }
{
    let was = [operand_of(before, feeds, 0), operand_of(before, feeds, 1)];
    let is = [
        Sig::Unknown,
        operand_of(values, feeds, 1),
        operand_of(values, feeds, 2),
    ];
    flop_next(flop, &was, &is, kept)
}

/// What a cell makes of its net, and, of a three-state gate, what it gives there.
#[derive(Clone, Copy)]
pub(crate) struct Given {
    pub(crate) value: Sig,
    pub(crate) drive: Option<PinSig>,
}

/// What a cell makes of its net, of this direction and with this value outside.
#[tactic(auto, using(crate::proofs::Gives::flop_seen, crate::proofs::Gives::gate_seen, crate::proofs::Gives::flop_plain, netlist_settling::proofs::Looked::always_drives))]
pub(crate) fn driven<L: Ledger>(
    library: &Library,
    side: Option<Dir>,
    kind: Kind,
    feeds: &[Feed],
    values: &[Sig],
    kept: Sig,
    outside: PinSig,
    steps: &mut Steps<L>,
) -> Given
    requires takes { Takes library.now kind (length feeds.now) }
    requires few { length feeds.now ≤ 256 }
    ensures value { result.value ≡ driven_value library.now side kind (feed_values (value_at values.now) feeds.now)
        kept outside }
    ensures drive { is_three_state kind ≡ true → result.drive
        ≡ Some (cell_drive kind (feed_values (value_at values.now) feeds.now) Unknown) }
    ensures step { steps.new ≡ steps.old + steps_of library.now kind }
{
    if is_flop(library, kind) {
        return Given {
            value: seen(side, kept, PinSig::Unknown, outside),
            drive: None,
        };
    }
    match kind {
        Kind::Bufif0 | Kind::Bufif1 => {
            let value = operand_of(values, feeds, 0);
            let control = operand_of(values, feeds, 1);
            let drive = eval_pin_step(kind, value, control, steps);
            Given {
                value: seen(side, see(drive), drive, outside),
                drive: Some(drive),
            }
        }
        _ => {
            let value = gate_value(library, kind, feeds, values, steps);
            Given {
                value: seen(side, value, PinSig::Unknown, outside),
                drive: None,
            }
        }
    }
}

// What is seen of a net of this direction: an input as its pin, an inout as its driver joined with its pin.
fn seen(side: Option<Dir>, inside: Sig, drive: PinSig, outside: PinSig) -> Sig
    ensures { result ≡ seen side inside drive outside }
{
    match side {
        Some(Dir::Input) => see(outside),
        Some(Dir::Inout) => see(join(drive, outside)),
        Some(Dir::Output) | None => inside,
    }
}
