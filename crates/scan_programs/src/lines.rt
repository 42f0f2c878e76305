// The lines of a program as they are put down.

ghost use Rattle.std.specs.Prelude.{◌≡◌, ◌++◌, ◌∷◌, [], ◌<◌, ◌≤◌, ◌^◌, length, map, OnOk};
ghost use Rattle.scan_vectors.specs.declared.lines.Line.TheVariants.{Start};
ghost use Rattle.test_logic.specs.Machine.{test_logic_of};
ghost use Rattle.scan_programs.specs.Fits.{AreInRange};
ghost use Rattle.scan_programs.specs.Pins as pins;
ghost use Rattle.scan_programs.specs.Program as definition;

use crate::cells::{bit, reading};
use crate::pins::{Reader, bit_word, indices, port_word};
use bsdl_device::{DevPort, Device, PortMode};
use scan_vectors::Line;
use signal_values::{PinSig, pin_of};
use std::alloc::Global;
use tap_machine::Machine;
use texts::{OutOfMemory, Row, Text};

fn takes_start(port: &DevPort) -> bool
    ensures { result ≡ pins.takes_start port.now }
{
    matches!(port.mode, PortMode::Input | PortMode::Inout)
}

fn start_value(device: &Device, place: u32, port: &DevPort) -> PinSig
    ensures { result ≡ pins.start_value device.now place port.now }
{
    match port.mode {
        PortMode::Inout => PinSig::HighZ,
        _ if place == device.tms => PinSig::One,
        _ => PinSig::Zero,
    }
}

// A start of each bit of a port.
fn put_start(
    alloc: Global,
    list: &mut Row<Line>,
    name: &[u8],
    value: PinSig,
    indices: &[Option<u32>],
) -> Result<(), OutOfMemory>
    ensures { OnOk result (list.new ≡ list.old
        ++ map (λ index. Start (pins.bit_word name.now index) value) indices.now) }
{
    for index in indices {
        let pin = bit_word(alloc, name, *index)?;
        list.push(Line::Start { pin, value })?;
    }
    Ok(())
}

fn put_starts_of(
    alloc: Global,
    list: &mut Row<Line>,
    device: &Device,
    place: u32,
    port: &DevPort,
) -> Result<(), OutOfMemory>
    ensures { OnOk result (list.new ≡ list.old ++ pins.starts_of device.now (place, port.now)) }
{
    if !takes_start(port) {
        return Ok(());
    }
    let value = start_value(device, place, port);
    let indices = indices(alloc, port.range)?;
    put_start(alloc, list, port.name.as_bytes(), value, indices.as_slice())
}

/// A start of each input and inout.
#[tactic(auto, using(crate::proofs::Lists::pieces_more, crate::proofs::Lists::pieces_all, crate::proofs::Opened::starts_is))]
pub fn put_starts(alloc: Global, list: &mut Row<Line>, device: &Device) -> Result<(), OutOfMemory>
    requires { length device.now.ports ≤ 2 ^ 32 }
    ensures { OnOk result (list.new ≡ list.old ++ pins.starts device.now) }
{
    let ports = device.ports.as_slice();
    for place in 0..ports.len() {
        put_starts_of(alloc, list, device, place as u32, &ports[place])?;
    }
    Ok(())
}

/// A set of an input of the test access port, by its place.
pub fn put_set(
    alloc: Global,
    list: &mut Row<Line>,
    device: &Device,
    place: u32,
    level: bool,
) -> Result<(), OutOfMemory>
    ensures { OnOk result (list.new ≡ list.old ++ definition.set_line device.now place level ∷ []) }
{
    list.push(Line::Set {
        pin: Text::from_bytes(alloc, port_word(device, place))?,
        value: pin_of(bit(level)),
    })
}

/// A set where the level was another.
pub fn put_set_if(
    alloc: Global,
    list: &mut Row<Line>,
    device: &Device,
    place: u32,
    before: bool,
    level: bool,
) -> Result<(), OutOfMemory>
    ensures { OnOk result (list.new ≡ list.old ++ definition.set_if device.now place before level) }
{
    if before == level {
        return Ok(());
    }
    put_set(alloc, list, device, place, level)
}

// What is read is expected where it is known.
fn put_expected(
    alloc: Global,
    list: &mut Row<Line>,
    word: &[u8],
    value: PinSig,
) -> Result<(), OutOfMemory>
    ensures { OnOk result (list.new ≡ list.old ++ definition.expected word.now value) }
{
    if value == PinSig::Unknown {
        return Ok(());
    }
    list.push(Line::Expect {
        pin: Text::from_bytes(alloc, word)?,
        value,
    })
}

/// Adds what TDO is expected to read at this moment, if anything is.
pub fn put_tdo(
    alloc: Global,
    list: &mut Row<Line>,
    device: &Device,
    machine: &Machine,
) -> Result<(), OutOfMemory>
    ensures { OnOk result (list.new ≡ list.old ++ definition.tdo_lines device.now machine.now.holds) }
{
    put_expected(alloc, list, port_word(device, device.tdo), machine.tdo())
}

fn reader_value(device: &Device, machine: &Machine, reader: &Reader) -> PinSig
    requires logic { machine.now.logic ≡ test_logic_of device.now }
    requires rows { AreInRange device.now.cells }
    requires few { length device.now.cells < 10 ^ 9 }
    ensures { result ≡ definition.reader_value device.now machine.now.holds reader.now }
{
    match reader.number {
        None => PinSig::Unknown,
        Some(number) => reading(device, machine, number),
    }
}

/// What the outputs and inouts read.
pub fn put_pins(
    alloc: Global,
    list: &mut Row<Line>,
    device: &Device,
    readers: &[Reader],
    machine: &Machine,
) -> Result<(), OutOfMemory>
    requires logic { machine.now.logic ≡ test_logic_of device.now }
    requires rows { AreInRange device.now.cells }
    requires few { length device.now.cells < 10 ^ 9 }
    requires readers { readers.now ≡ pins.readers device.now }
    ensures { OnOk result (list.new ≡ list.old ++ definition.pin_lines device.now machine.now.holds) }
{
    for reader in readers {
        let value = reader_value(device, machine, reader);
        put_expected(alloc, list, reader.word.as_bytes(), value)?;
    }
    Ok(())
}
