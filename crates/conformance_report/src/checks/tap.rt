// The rule of the test access port on event lines.
ghost use Rattle.std.specs.Prelude.{◌≡◌, ◌↔◌, IsTrue, MatchOption};
ghost use Rattle.netlist_model.specs.Runs.{IsKnownPin};
ghost use Rattle.scan_vectors.specs.Grammar.{pin_of};
ghost use Rattle.scan_vectors.specs.Scripts.{IsSpelled};
ghost use Rattle.conformance_report.specs.Rules.{BreaksTapRule, KeepsTapRule, NamesPort, NamesTapInput};
ghost use Rattle.conformance_report.specs.Firsts.{IsFirstTapBroken};

use bsdl_device::{DevPort, Device};
use scan_vectors::scripts::parts_of;
use scan_vectors::{Act, Line, Lines};
use signal_values::PinSig;

/// The number of the first line that breaks the rule.
pub fn first_break(device: &Device, lines: &Lines) -> Option<u64>
    requires { IsSpelled lines.now }
    ensures { MatchOption result (KeepsTapRule device.now lines.now.list)
        (IsFirstTapBroken device.now lines.now) }
{
    let numbers = lines.numbers.as_slice();
    for (place, line) in lines.list.as_slice().iter().enumerate() {
        if breaks_rule(device, line) {
            return Some(numbers[place]);
        }
    }
    None
}

// Whether the line breaks the rule.
fn breaks_rule(device: &Device, line: &Line) -> bool
    ensures { IsTrue result ↔ BreaksTapRule device.now line.now }
{
    let parts = parts_of(line);
    match parts.act {
        Act::Start => {
            !is_known(parts.value) && names_input(device, line)
                || !is_zero(parts.value) && names_port(device, device.trst, line)
        }
        Act::Set => !is_known(parts.value) && names_input(device, line),
        Act::Expect => false,
    }
}

// Whether the line names an input of the test access port.
fn names_input(device: &Device, line: &Line) -> bool
    ensures { IsTrue result ↔ NamesTapInput device.now line.now }
{
    names_port(device, device.tck, line)
        || names_port(device, device.tms, line)
        || names_port(device, device.tdi, line)
        || names_port(device, device.trst, line)
}

// Whether the word of the line is the name of the device's port at this place.
#[tactic(auto, using(crate::proofs::Taps::port_named, crate::proofs::Taps::port_absent))]
fn names_port(device: &Device, place: u32, line: &Line) -> bool
    ensures { IsTrue result ↔ NamesPort device.now place line.now }
{
    match device.ports.as_slice().get(place as usize) {
        Some(port) => has_name(port, line),
        None => false,
    }
}

// Whether the word of the line is the name of the port.
fn has_name(port: &DevPort, line: &Line) -> bool
    ensures { IsTrue result ↔ (pin_of line.now ≡ port.now.name) }
{
    parts_of(line).word == port.name.as_bytes()
}

fn is_known(value: PinSig) -> bool
    ensures { IsTrue result ↔ IsKnownPin value }
{
    match value {
        PinSig::Zero | PinSig::One => true,
        PinSig::Unknown | PinSig::HighZ => false,
    }
}

fn is_zero(value: PinSig) -> bool
    ensures { IsTrue result ↔ (value ≡ PinSig.Zero) }
{
    match value {
        PinSig::Zero => true,
        PinSig::One | PinSig::Unknown | PinSig::HighZ => false,
    }
}
