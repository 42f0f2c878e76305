// The words of a device's pins, its outputs and inouts with the cells that stand there.

ghost use Rattle.std.specs.Prelude.{◌≡◌, ◌++◌, ◌||◌, ◌<◌, ◌≤◌, ◌^◌, length, map, Some, IfOk, OnOk};
ghost use Rattle.bsdl_device.specs.IsDevice as device_rules;
ghost use Rattle.bsdl_device.specs.Ports as ports;
ghost use Rattle.bsdl_device.specs.declared.values.PortMode.TheVariants as mode;
ghost use Rattle.scan_programs.specs.Pins as definition;

use crate::cell_table::CellTable;
use bsdl_device::runs::written::put_number;
use bsdl_device::{DevBit, DevPort, Device, PortMode, PortRange};
use std::alloc::Global;
use texts::{OutOfMemory, Text};

/// A bit that is read, by its word, and the number of the cell that stands there.
#[derive(Drop)]
pub struct Reader {
    pub word: Text,
    pub number: Option<usize>,
}

/// The word of a scalar port by its place.
pub fn port_word(device: &Device, place: u32) -> &[u8]
    ensures { result.now ≡ definition.port_word device.now place }
{
    match device.ports.as_slice().get(place as usize) {
        None => &[],
        Some(port) => port.name.as_bytes(),
    }
}

fn add_index(word: &mut Text, index: u32) -> Result<(), OutOfMemory>
    ensures { OnOk result (word.new ≡ definition.bit_word word.old (Some index)) }
{
    word.push(b'[')?;
    put_number(word, index as u64)?;
    word.push(b']')
}

/// The word of a bit.
pub fn bit_word(alloc: Global, name: &[u8], index: Option<u32>) -> Result<Text, OutOfMemory>
    ensures { IfOk result (λ word. word ≡ definition.bit_word name.now index) }
{
    let mut word = Text::from_bytes(alloc, name)?;
    if let Some(index) = index {
        add_index(&mut word, index)?;
    }
    Ok(word)
}

fn width(range: PortRange) -> u64
    ensures { result ≡ ports.width (Some range) }
{
    let (left, right) = (range.left as u64, range.right as u64);
    if left <= right {
        right - left + 1
    } else {
        left - right + 1
    }
}

fn index_at(range: PortRange, place: u64) -> u32
    requires { place < ports.width (Some range) }
    ensures { result ≡ ports.index_at range place }
{
    let place = place as u32;
    if range.left <= range.right {
        range.left + place
    } else {
        range.left - place
    }
}

fn vector_indices(alloc: Global, range: PortRange) -> Result<Vec<Option<u32>>, OutOfMemory>
    ensures { IfOk result (λ list. list.items ≡ ports.indices (Some range)) }
{
    let count = width(range);
    let mut list = Vec::new(alloc);
    for place in 0..count {
        list.push(Some(index_at(range, place)))?;
    }
    Ok(list)
}

/// The indices of a port's bits, from the left; a scalar's bit has none.
pub fn indices(alloc: Global, range: Option<PortRange>) -> Result<Vec<Option<u32>>, OutOfMemory>
    ensures { IfOk result (λ list. list.items ≡ ports.indices range) }
{
    match range {
        None => Ok(vec![in alloc; None]?),
        Some(range) => vector_indices(alloc, range),
    }
}

fn is_tap_place(device: &Device, place: u32) -> bool
    ensures { result ≡ device_rules.is_tap_place device.now place }
{
    place == device.tck
        || place == device.tms
        || place == device.tdi
        || place == device.tdo
        || place == device.trst
}

fn is_output(found: PortMode) -> bool
    ensures { result ≡ (ports.is_mode mode.Output found || ports.is_mode mode.Inout found) }
{
    matches!(found, PortMode::Output | PortMode::Inout)
}

fn is_read_port(device: &Device, place: u32, port: &DevPort) -> bool
    ensures { result ≡ definition.is_read_port device.now (place, port.now) }
{
    !is_tap_place(device, place) && is_output(port.mode)
}

fn reader_at(
    alloc: Global,
    table: &CellTable,
    place: u32,
    name: &[u8],
    index: Option<u32>,
) -> Result<Reader, OutOfMemory>
    ensures { IfOk result (λ r. r ≡ definition.reader_at table.now place name.now index) }
{
    Ok(Reader {
        word: bit_word(alloc, name, index)?,
        number: table.cell_at(DevBit { port: place, index }),
    })
}

fn push_bits(
    alloc: Global,
    list: &mut Vec<Reader>,
    table: &CellTable,
    place: u32,
    name: &[u8],
    indices: &[Option<u32>],
) -> Result<(), OutOfMemory>
    ensures { OnOk result (list.new.items ≡ list.old.items
        ++ map (definition.reader_at table.now place name.now) indices.now) }
{
    for index in indices {
        let reader = reader_at(alloc, table, place, name, *index)?;
        list.push(reader)?;
    }
    Ok(())
}

// The bits of one port.
fn push_readers(
    alloc: Global,
    list: &mut Vec<Reader>,
    device: &Device,
    table: &CellTable,
    place: u32,
    port: &DevPort,
) -> Result<(), OutOfMemory>
    requires { table.now ≡ device.now.cells }
    ensures { OnOk result (list.new.items ≡ list.old.items
        ++ definition.readers_of device.now (place, port.now)) }
{
    if !is_read_port(device, place, port) {
        return Ok(());
    }
    let indices = indices(alloc, port.range)?;
    push_bits(
        alloc,
        list,
        table,
        place,
        port.name.as_bytes(),
        indices.as_slice(),
    )
}

/// The outputs and inouts of the device's own logic, in the order of the ports, bits from the left.
#[tactic(auto, using(crate::proofs::Lists::pieces_more, crate::proofs::Lists::pieces_all, crate::proofs::Opened::readers_is))]
pub fn readers(alloc: Global, device: &Device) -> Result<Vec<Reader>, OutOfMemory>
    requires { length device.now.ports ≤ 2 ^ 32 }
    ensures { IfOk result (λ list. list.items ≡ definition.readers device.now) }
{
    let table = CellTable::of(alloc, device.cells.as_slice())?;
    let ports = device.ports.as_slice();
    let mut list = Vec::new(alloc);
    for place in 0..ports.len() {
        push_readers(
            alloc,
            &mut list,
            device,
            &table,
            place as u32,
            &ports[place],
        )?;
    }
    Ok(list)
}
