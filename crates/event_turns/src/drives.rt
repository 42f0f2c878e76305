// What three-state gates give their nets, at a start.

ghost use Rattle.std.specs.Prelude.{◌≡◌, ◌≤◌, ◌+◌, length};
ghost use Rattle.netlist_model.specs.Settled.{feed_values};
ghost use Rattle.netlist_settling.specs.Values.{value_at, pin_at};
ghost use Rattle.event_laws.specs.Work.{AreDriven};
ghost use Rattle.event_turns.specs.Circuits.{feeds_in};
ghost use Rattle.event_turns.specs.Logs.{drives_by, own_drive};
ghost use Rattle.event_turns.specs.Tables.{IsBelow};

use crate::circuit::{Circuit, Gate};
use crate::values::operand_of;
use cell_library::{Kind, eval_pin};
use netlist_model::Feed;
use signal_values::{PinSig, Sig};

/// Keeps what each three-state gate gives its net, where the nets have these values.
pub fn keep_drives(circuit: &Circuit, values: &[Sig], drives: &mut [PinSig])
    requires { length drives.old ≡ length circuit.now.lists.nets }
    ensures long { length drives.new ≡ length drives.old }
    ensures driven { AreDriven circuit.now.lists (value_at values.now) (pin_at drives.new) }
{
    circuit.are_tables();
    for place in 0..circuit.gates.len() {
        keep_own(
            circuit.gates[place],
            circuit.feeds.as_slice(),
            values,
            drives,
        );
    }
}

// Keeps what a gate gives its net, where it is a three-state gate.
fn keep_own(gate: Gate, feeds: &[Feed], values: &[Sig], drives: &mut [PinSig])
    requires feeds { gate.first + gate.count ≤ length feeds.now }
    requires drives { IsBelow (length drives.old) gate.output }
    ensures { drives.new ≡ drives_by gate.output (own_drive gate.kind (feed_values (value_at values.now)
        (feeds_in feeds.now gate))) drives.old }
{
    let operands = &feeds[gate.first..gate.first + gate.count as usize];
    let Some(net) = gate.output else {
        return;
    };
    if let Some(drive) = own_drive(gate.kind, operands, values) {
        drives[net.0 as usize] = drive;
    }
}

// What a three-state gate gives its net.
fn own_drive(kind: Kind, feeds: &[Feed], values: &[Sig]) -> Option<PinSig>
    ensures { result ≡ own_drive kind (feed_values (value_at values.now) feeds.now) }
{
    match kind {
        Kind::Bufif0 | Kind::Bufif1 => Some(eval_pin(
            kind,
            operand_of(values, feeds, 0),
            operand_of(values, feeds, 1),
        )),
        _ => None,
    }
}
