// The netlist's own ports with their physical pins.
ghost use Rattle.std.specs.Prelude.{◌≡◌, ◌<◌, [], IfOk, length, map, Some, slice_get};
ghost use Rattle.std.specs.List.{enumerate_from};
ghost use Rattle.std.specs.Option.{option_map, option_map_or};
ghost use Rattle.netlist_link.specs.Linked.{own_ports};
ghost use Rattle.plan_fitting.specs.Devices as devices;

use crate::bits::BitTable;
use crate::netlist_names::{port_width, text_of_port};
use netlist_link::Linked;
use netlist_model::{PinBit, PortId};
use plan_fitting::FitPort;
use plan_fitting::copies::text_copy;
use plan_texts::{PinLine, Plan};
use std::alloc::Global;
use texts::{OutOfMemory, Row, Text};

// The physical pin of the line at a place.
fn pin_at(alloc: Global, lines: &[PinLine], place: usize) -> Result<Text, OutOfMemory>
    ensures { IfOk result (λ text. text ≡ option_map_or (λ line. line.pin)
        (slice_get lines.now place) []) }
{
    match lines.get(place) {
        Some(line) => text_copy(alloc, &line.pin),
        None => Ok(Text::new(alloc)),
    }
}

// The physical pin of a bit.
#[tactic(auto, using(crate::proofs::BitPlaces::pin_of_none, crate::proofs::BitPlaces::pin_of_some))]
fn pin_for(
    alloc: Global,
    lines: &[PinLine],
    bits: &BitTable,
    pin: PinBit,
) -> Result<Text, OutOfMemory>
    ensures { IfOk result (λ text. text ≡ devices.pin_for lines.now bits.now pin) }
{
    match bits.line_of(pin) {
        None => Ok(Text::new(alloc)),
        Some(place) => pin_at(alloc, lines, place),
    }
}

// The physical pins of a port's bits, from the left.
fn pins_of_port(
    alloc: Global,
    linked: &Linked,
    plan: &Plan,
    bits: &BitTable,
    port: PortId,
) -> Result<Row<Text>, OutOfMemory>
    requires { port.0 < length linked.now.arena.lists.ports }
    ensures { IfOk result (λ pins. option_map
        (λ view. devices.pins_of_port plan.now bits.now (port.0, view))
        (slice_get linked.now.arena.lists.ports port.0) ≡ Some pins) }
{
    let mut pins = Row::new(alloc);
    for bit in 0..port_width(linked.netlist(), port) {
        pins.push(pin_for(alloc, plan.pins.as_slice(), bits, PinBit { port, bit })?)?;
    }
    Ok(pins)
}

fn fit_port(
    alloc: Global,
    linked: &Linked,
    plan: &Plan,
    bits: &BitTable,
    port: PortId,
) -> Result<FitPort, OutOfMemory>
    requires { port.0 < length linked.now.arena.lists.ports }
    ensures { IfOk result (λ made. option_map
        (λ view. devices.fit_port linked.now plan.now bits.now (port.0, view))
        (slice_get linked.now.arena.lists.ports port.0) ≡ Some made) }
{
    let netlist = linked.netlist();
    Ok(FitPort {
        name: Text::from_bytes(alloc, text_of_port(linked, port))?,
        dir: netlist.port_dir(port),
        range: netlist.port_range(port),
        pins: pins_of_port(alloc, linked, plan, bits, port)?,
    })
}

/// The netlist's own ports, with a physical pin for each bit.
pub fn fit_ports(
    alloc: Global,
    linked: &Linked,
    plan: &Plan,
    bits: &BitTable,
) -> Result<Row<FitPort>, OutOfMemory>
    ensures { IfOk result (λ ports. ports ≡ map (devices.fit_port linked.now plan.now bits.now)
        (enumerate_from 0 (own_ports linked.now))) }
{
    let mut ports = Row::new(alloc);
    for number in 0..linked.own_port_count() {
        ports.push(fit_port(alloc, linked, plan, bits, PortId(number))?)?;
    }
    Ok(ports)
}
