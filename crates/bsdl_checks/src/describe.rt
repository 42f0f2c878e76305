// The device that a file and its contents describe.
ghost use Rattle.std.specs.Prelude.{◌≡◌, ◌≤◌, ◌++◌, [], IfOk, OnOk, length, map};
ghost use Rattle.std.specs.List.{cons_option, filter_map};
ghost use Rattle.bsdl_device.specs.Ports as declared;
ghost use Rattle.bsdl_device.specs.Checks as rule;
ghost use Rattle.bsdl_device.specs.Denoted as denoted;
ghost use Rattle.bsdl_device.specs.Meanings.{first_meaning_fault};

use crate::cells::{cells_of, place_of};
use crate::pin_table::PinTable;
use bsdl_device::{
    Contents, DeclaredPort, DevPort, Device, File, MappedPins, OpcodeEntry, PinEntry,
};
use bsdl_port_rules::{PortTable, declared_ports, instruction_named};
use cell_library::Opcode;
use std::alloc::Global;
use texts::{OutOfMemory, Row, Text};

// Adds copies of an entry's pins at the end.
fn extend_pins(alloc: Global, pins: &mut Row<Text>, further: &MappedPins) -> Result<(), OutOfMemory>
    ensures { OnOk result (pins.new ≡ pins.old ++ rule.entry_pins further.now) }
{
    match further {
        MappedPins::One(pin) => pins.push(Text::from_bytes(alloc, pin.as_bytes())?),
        MappedPins::Several(list) => extend_names(alloc, pins, list.as_slice()),
    }
}

// Adds copies of names at the end.
fn extend_names(alloc: Global, names: &mut Row<Text>, further: &[Text]) -> Result<(), OutOfMemory>
    ensures { OnOk result (names.new ≡ names.old ++ further.now) }
{
    for name in further {
        names.push(Text::from_bytes(alloc, name.as_bytes())?)?;
    }
    Ok(())
}

fn pins_of(alloc: Global, entries: &PinTable, name: &[u8]) -> Result<Row<Text>, OutOfMemory>
    ensures { IfOk result (λ pins. pins ≡ denoted.pins_of entries.now name.now) }
{
    let mut pins = Row::new(alloc);
    match entries.find(name) {
        None => {}
        Some(entry) => extend_pins(alloc, &mut pins, &entry.pins)?,
    }
    Ok(pins)
}

fn port_of(alloc: Global, entries: &PinTable, port: &DeclaredPort) -> Result<DevPort, OutOfMemory>
    ensures { IfOk result (λ made. made ≡ denoted.port_of entries.now port.now) }
{
    Ok(DevPort {
        name: Text::from_bytes(alloc, port.name.as_bytes())?,
        mode: port.mode,
        range: port.range,
        pins: pins_of(alloc, entries, port.name.as_bytes())?,
    })
}

fn ports_of(
    alloc: Global,
    entries: &[PinEntry],
    ports: &[DeclaredPort],
) -> Result<Row<DevPort>, OutOfMemory>
    ensures { IfOk result (λ made. made ≡ map (denoted.port_of entries.now) ports.now) }
{
    let table = PinTable::of(alloc, entries)?;
    let mut made = Row::new(alloc);
    for port in ports {
        made.push(port_of(alloc, &table, port)?)?;
    }
    Ok(made)
}

fn opcode_of(entry: &OpcodeEntry) -> Option<Opcode>
    ensures { result ≡ denoted.opcode_of entry.now }
{
    match instruction_named(entry.name.as_bytes()) {
        None => None,
        Some(instr) => Some(Opcode {
            instr,
            bits: entry.bits,
        }),
    }
}

// Adds the opcode of an entry at the end.
fn push_opcode(made: &mut Row<Opcode>, entry: &OpcodeEntry) -> Result<(), OutOfMemory>
    ensures { OnOk result (made.new ≡ made.old ++ cons_option (denoted.opcode_of entry.now) []) }
{
    match opcode_of(entry) {
        None => Ok(()),
        Some(opcode) => made.push(opcode),
    }
}

fn opcodes_of(alloc: Global, entries: &[OpcodeEntry]) -> Result<Row<Opcode>, OutOfMemory>
    ensures { IfOk result (λ made. made ≡ filter_map denoted.opcode_of entries.now) }
{
    let mut made = Row::new(alloc);
    for entry in entries {
        push_opcode(&mut made, entry)?;
    }
    Ok(made)
}

fn device_at(
    alloc: Global,
    file: &File,
    contents: &Contents,
    ports: &PortTable,
) -> Result<Device, OutOfMemory>
    requires same { ports.now ≡ declared.declared_ports file.now }
    requires few { length ports.now ≤ 4096 }
    ensures { IfOk result (λ made. made ≡ denoted.device_of file.now contents.now) }
{
    Ok(Device {
        entity: Text::from_bytes(alloc, file.entity.as_bytes())?,
        package: Text::from_bytes(alloc, file.package.as_bytes())?,
        ports: ports_of(alloc, contents.pin_map.as_slice(), ports.as_slice())?,
        tck: place_of(ports, file.tap.tck.as_bytes()),
        tms: place_of(ports, file.tap.tms.as_bytes()),
        tdi: place_of(ports, file.tap.tdi.as_bytes()),
        tdo: place_of(ports, file.tap.tdo.as_bytes()),
        trst: place_of(ports, file.tap.trst.as_bytes()),
        clock: Text::from_bytes(alloc, file.clock.as_bytes())?,
        stop: file.stop,
        length: file.length.value,
        opcodes: opcodes_of(alloc, contents.opcodes.as_slice())?,
        capture: contents.capture,
        idcode: contents.idcode,
        usercode: contents.usercode,
        cells: cells_of(
            alloc,
            ports,
            file.boundary_length.value,
            contents.rows.as_slice(),
        )?,
    })
}

/// The device of a file that breaks no rule.
pub fn device(alloc: Global, file: &File, contents: &Contents) -> Result<Device, OutOfMemory>
    requires { first_meaning_fault file.now contents.now ≡ None }
    ensures { IfOk result (λ made. made ≡ denoted.device_of file.now contents.now) }
{
    let ports = declared_ports(alloc, file)?;
    let table = PortTable::of(alloc, &ports)?;
    device_at(alloc, file, contents, &table)
}
