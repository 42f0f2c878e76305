// The pin lines of a plan.
ghost use Rattle.std.specs.Prelude.{◌≡◌, ◌++◌, IfOk, OnOk};
ghost use Rattle.plan_fitting.specs.Names.{index_word};
ghost use Rattle.netlist_recovery.specs.Tables.{AreFound};
ghost use Rattle.strip_model.specs.Plans as model;

use bsdl_device::{CellRow, DevBit, DevPort, Device, PortRange};
use cell_library::BoundaryKind;
use itoa::Buffer;
use plan_fitting::copies::text_copy;
use plan_texts::PinLine;
use std::alloc::Global;
use texts::{OutOfMemory, Row, Text};

// The place of a bit among its port's, from the left, by its index.
fn place_in(range: Option<PortRange>, index: Option<u32>) -> u64
    ensures { result ≡ model.place_in range index }
{
    match (range, index) {
        (Some(range), Some(index)) => {
            range.left.saturating_sub(index) as u64 + index.saturating_sub(range.left) as u64
        }
        (_, _) => 0,
    }
}

// Adds an index in brackets, if there is one.
fn push_index(word: &mut Text, index: Option<u32>) -> Result<(), OutOfMemory>
    ensures { OnOk result (word.new ≡ word.old ++ index_word index) }
{
    if let Some(index) = index {
        let mut digits = Buffer::new();
        word.push(b'[')?;
        word.append(digits.format(index).as_bytes())?;
        word.push(b']')?;
    }
    Ok(())
}

fn word_of(alloc: Global, port: &DevPort, index: Option<u32>) -> Result<Text, OutOfMemory>
    ensures { IfOk result (λ word. word ≡ port.now.name ++ index_word index) }
{
    let mut word = text_copy(alloc, &port.name)?;
    push_index(&mut word, index)?;
    Ok(word)
}

fn line_with(
    alloc: Global,
    cell: BoundaryKind,
    index: Option<u32>,
    port: &DevPort,
    pin: &Text,
) -> Result<PinLine, OutOfMemory>
    ensures { IfOk result (λ line. line
        ≡ record { port = port.now.name ++ index_word index; pin = pin.now; cell = cell }) }
{
    Ok(PinLine {
        port: word_of(alloc, port, index)?,
        pin: text_copy(alloc, pin)?,
        cell,
    })
}

fn pin_line(
    alloc: Global,
    cell: BoundaryKind,
    bit: DevBit,
    port: &DevPort,
) -> Result<Option<PinLine>, OutOfMemory>
    ensures { IfOk result (λ line. line ≡ model.pin_line cell bit port.now) }
{
    let place = place_in(port.range, bit.index);
    match port.pins.as_slice().get(place as usize) {
        Some(pin) => Ok(Some(line_with(alloc, cell, bit.index, port, pin)?)),
        None => Ok(None),
    }
}

// The line of a cell at a bit.
fn line_at(
    alloc: Global,
    device: &Device,
    cell: BoundaryKind,
    bit: DevBit,
) -> Result<Option<PinLine>, OutOfMemory>
    ensures { IfOk result (λ line. line ≡ model.line_of_bit device.now cell bit) }
{
    match device.ports.as_slice().get(bit.port as usize) {
        Some(port) => pin_line(alloc, cell, bit, port),
        None => Ok(None),
    }
}

// Adds the line of a cell, if it is at a bit; tells whether it is found.
fn push_line(
    alloc: Global,
    device: &Device,
    row: CellRow,
    lines: &mut Row<PinLine>,
) -> Result<bool, OutOfMemory>
    ensures { IfOk result (λ is_found. AreFound is_found lines.old lines.new
        (model.all_found (model.lines_of_row device.now row.cell row.pin))) }
{
    let Some(bit) = row.pin else {
        return Ok(true);
    };
    match line_at(alloc, device, row.cell, bit)? {
        Some(line) => {
            lines.push(line)?;
            Ok(true)
        }
        None => Ok(false),
    }
}

/// The line of each cell at a bit; none where a bit has no pin.
pub fn pin_lines(alloc: Global, device: &Device) -> Result<Option<Row<PinLine>>, OutOfMemory>
    ensures { IfOk result (λ lines. lines
        ≡ model.all_found (model.lines_of_rows device.now device.now.cells)) }
{
    let mut lines = Row::new(alloc);
    let rows = device.cells.as_slice();
    for row in rows {
        if !push_line(alloc, device, *row, &mut lines)? {
            return Ok(None);
        }
    }
    Ok(Some(lines))
}
