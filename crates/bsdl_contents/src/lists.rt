ghost use Rattle.std.specs.Prelude.{◌≡◌, ◌≤◌, length, IfOk};
ghost use Rattle.bsdl_contents.specs.Outcomes.{Gives};
ghost use Rattle.bsdl_contents.specs.Reader.{list_at, pin_at, identifier_at, pin_entry_at, opcode_at, access_at, row_at};

use crate::fault::PartFault;
use crate::parts::{access, opcode, pin_entry, row};
use crate::reader::ContentReader;
use bsdl_device::{AccessEntry, OpcodeEntry, PinEntry, RowEntry};
use std::alloc::Global;
use texts::{Row, Text};

// Each list has an entry at least, and commas between its entries.

/// The pins of a vector.
pub fn pins(alloc: Global, reader: &mut ContentReader) -> Result<Row<Text>, PartFault>
    ensures gives { Gives result reader.new (list_at pin_at reader.old) }
    ensures within { length reader.new ≤ length reader.old }
{
    let mut list = Row::new(alloc);
    list.push(reader.pin(alloc)?)?;
    while reader.take_mark(b',') {
        list.push(reader.pin(alloc)?)?;
    }
    Ok(list)
}

/// The names of a register's instructions.
pub fn identifiers(alloc: Global, reader: &mut ContentReader) -> Result<Row<Text>, PartFault>
    ensures gives { Gives result reader.new (list_at identifier_at reader.old) }
    ensures within { length reader.new ≤ length reader.old }
{
    let mut list = Row::new(alloc);
    list.push(reader.identifier(alloc)?)?;
    while reader.take_mark(b',') {
        list.push(reader.identifier(alloc)?)?;
    }
    Ok(list)
}

/// The ports of a pin map, each with its pins.
pub fn pin_entries(alloc: Global, reader: &mut ContentReader) -> Result<Row<PinEntry>, PartFault>
    ensures gives { Gives result reader.new (list_at pin_entry_at reader.old) }
    ensures within { length reader.new ≤ length reader.old }
{
    let mut list = Row::new(alloc);
    list.push(pin_entry(alloc, reader)?)?;
    while reader.take_mark(b',') {
        list.push(pin_entry(alloc, reader)?)?;
    }
    Ok(list)
}

/// Instructions, each with an opcode.
pub fn opcodes(alloc: Global, reader: &mut ContentReader) -> Result<Row<OpcodeEntry>, PartFault>
    ensures gives { Gives result reader.new (list_at opcode_at reader.old) }
    ensures within { length reader.new ≤ length reader.old }
{
    let mut list = Row::new(alloc);
    list.push(opcode(alloc, reader)?)?;
    while reader.take_mark(b',') {
        list.push(opcode(alloc, reader)?)?;
    }
    Ok(list)
}

/// Registers, each with the instructions that select it.
pub fn accesses(alloc: Global, reader: &mut ContentReader) -> Result<Row<AccessEntry>, PartFault>
    ensures gives { Gives result reader.new (list_at access_at reader.old) }
    ensures within { length reader.new ≤ length reader.old }
{
    let mut list = Row::new(alloc);
    list.push(access(alloc, reader)?)?;
    while reader.take_mark(b',') {
        list.push(access(alloc, reader)?)?;
    }
    Ok(list)
}

/// Rows of the boundary register.
pub fn rows(alloc: Global, reader: &mut ContentReader) -> Result<Row<RowEntry>, PartFault>
    ensures gives { Gives result reader.new (list_at row_at reader.old) }
    ensures within { length reader.new ≤ length reader.old }
{
    let mut list = Row::new(alloc);
    list.push(row(alloc, reader)?)?;
    while reader.take_mark(b',') {
        list.push(row(alloc, reader)?)?;
    }
    Ok(list)
}
