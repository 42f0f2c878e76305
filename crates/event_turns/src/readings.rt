// What port bits read at rest, without a look at any operand.

ghost use Rattle.std.specs.Prelude.{◌≡◌, ◌<◌, length, option_map, if◌then◌else◌};
ghost use Rattle.signal_values.specs.Values.{pin_of};
ghost use Rattle.cell_library.specs.Gates.{is_three_state};
ghost use Rattle.netlist_model.specs.Lists.{CellView, direction};
ghost use Rattle.netlist_model.specs.Settled.{driver_of};
ghost use Rattle.netlist_model.specs.Readings.{reading_of};
ghost use Rattle.netlist_settling.specs.Values.{value_at, pin_at};
ghost use Rattle.event_laws.specs.Work.{kept_drive};

use crate::circuit::Circuit;
use crate::turns::place_of;
use crate::values::{pin_at, value_at};
use cell_library::Kind;
use netlist_model::{Dir, NetId};
use signal_values::{PinSig, Sig, join, pin_of};

/// What the bit with this net reads, from the pins, the values of nets and what is kept of three-state gates.
pub fn reading(
    circuit: &Circuit,
    net: NetId,
    pins: &[PinSig],
    values: &[Sig],
    drives: &[PinSig],
) -> PinSig
    requires { net.0 < length circuit.now.lists.nets }
    ensures { result ≡ reading_of (direction circuit.now.lists.ports net.0)
        (kept_drive (driver_of circuit.now.lists.cells net.0) (value_at values.now) (pin_at drives.now) net.0)
        (pin_at pins.now net.0) }
{
    let place = net.0 as usize;
    let outside = pin_at(pins, place);
    match circuit.sides[place] {
        Some(Dir::Input) => outside,
        Some(Dir::Inout) => join(kept_drive(circuit, net, values, drives), outside),
        Some(Dir::Output) | None => kept_drive(circuit, net, values, drives),
    }
}

// What the driver of a net gives it, from what is kept.
#[tactic(auto, using(crate::proofs::Kept::kept_some, crate::proofs::Kept::kept_none))]
fn kept_drive(circuit: &Circuit, net: NetId, values: &[Sig], drives: &[PinSig]) -> PinSig
    requires { net.0 < length circuit.now.lists.nets }
    ensures { result ≡ kept_drive (driver_of circuit.now.lists.cells net.0) (value_at values.now)
        (pin_at drives.now) net.0 }
{
    let value = value_at(values, net.0 as usize);
    match driver_kind(circuit, net) {
        Some(kind) => kept_by(kind, pin_at(drives, net.0 as usize), value),
        None => pin_of(value),
    }
}

// What a cell of this kind gives its net, from what is kept.
fn kept_by(kind: Kind, drive: PinSig, value: Sig) -> PinSig
    ensures { result ≡ (if is_three_state kind then drive else pin_of value) }
{
    match kind {
        Kind::Bufif0 | Kind::Bufif1 => drive,
        _ => pin_of(value),
    }
}

// The kind of the driver of a net.
fn driver_kind(circuit: &Circuit, net: NetId) -> Option<Kind>
    requires { net.0 < length circuit.now.lists.nets }
    ensures { result ≡ option_map (λ (cell : CellView). cell.kind)
        (driver_of circuit.now.lists.cells net.0) }
{
    let first = circuit.firsts[net.0 as usize];
    if first == 0 {
        return None;
    }
    let place = place_of(circuit.gates.len(), first as usize - 1);
    Some(circuit.gates[place].kind)
}
