ghost use Rattle.std.specs.Prelude.{◌≡◌, ◌≤◌, length};
ghost use Rattle.bsdl_contents.specs.Outcomes.{Gives};
ghost use Rattle.bsdl_contents.specs.Reader as reading;

use crate::fault::PartFault;
use crate::lists::{identifiers, pins};
use crate::reader::ContentReader;
use bsdl_device::values::Disable;
use bsdl_device::{AccessEntry, MappedPins, OpcodeEntry, PinEntry, PortBit, RowEntry, Safe};
use cell_library::{BoundaryKind, Function};
use std::alloc::Global;
use texts::{Row, Text};

// Pins, and the parenthesis behind them.
#[tactic(auto, unfolding(crate::specs::Reader::several_at))]
fn several_pins(alloc: Global, reader: &mut ContentReader) -> Result<Row<Text>, PartFault>
    ensures gives { Gives result reader.new (reading.several_at reader.old) }
    ensures within { length reader.new ≤ length reader.old }
{
    let list = pins(alloc, reader)?;
    reader.mark(b')')?;
    Ok(list)
}

// `pin` or `(pin,pin)`
#[tactic(auto, unfolding(crate::specs::Reader::pins_at))]
fn mapped_pins(alloc: Global, reader: &mut ContentReader) -> Result<MappedPins, PartFault>
    ensures gives { Gives result reader.new (reading.pins_at reader.old) }
    ensures within { length reader.new ≤ length reader.old }
{
    if reader.take_mark(b'(') {
        Ok(MappedPins::Several(several_pins(alloc, reader)?))
    } else {
        Ok(MappedPins::One(reader.pin(alloc)?))
    }
}

/// `port:pins`
#[tactic(auto, unfolding(crate::specs::Reader::pin_entry_at))]
pub fn pin_entry(alloc: Global, reader: &mut ContentReader) -> Result<PinEntry, PartFault>
    ensures gives { Gives result reader.new (reading.pin_entry_at reader.old) }
    ensures within { length reader.new ≤ length reader.old }
{
    let port = reader.name(alloc)?;
    reader.mark(b':')?;
    let pins = mapped_pins(alloc, reader)?;
    Ok(PinEntry { port, pins })
}

/// `INSTRUCTION (bits)`
#[tactic(auto, unfolding(crate::specs::Reader::opcode_at))]
pub fn opcode(alloc: Global, reader: &mut ContentReader) -> Result<OpcodeEntry, PartFault>
    ensures gives { Gives result reader.new (reading.opcode_at reader.old) }
    ensures within { length reader.new ≤ length reader.old }
{
    let name = reader.identifier(alloc)?;
    reader.mark(b'(')?;
    let bits = reader.bits()?;
    reader.mark(b')')?;
    Ok(OpcodeEntry { name, bits })
}

/// `REGISTER (INSTRUCTION, INSTRUCTION)`
#[tactic(auto, unfolding(crate::specs::Reader::access_at))]
pub fn access(alloc: Global, reader: &mut ContentReader) -> Result<AccessEntry, PartFault>
    ensures gives { Gives result reader.new (reading.access_at reader.old) }
    ensures within { length reader.new ≤ length reader.old }
{
    let register = reader.register()?;
    reader.mark(b'(')?;
    let instructions = identifiers(alloc, reader)?;
    reader.mark(b')')?;
    Ok(AccessEntry {
        register,
        instructions,
    })
}

// `index)`
#[tactic(auto, unfolding(crate::specs::Reader::index_at))]
fn index(reader: &mut ContentReader) -> Result<u32, PartFault>
    ensures gives { Gives result reader.new (reading.index_at reader.old) }
    ensures within { length reader.new ≤ length reader.old }
{
    let index = reader.integer()?;
    reader.mark(b')')?;
    Ok(index)
}

#[tactic(auto, unfolding(crate::specs::Reader::optional_index_at))]
fn optional_index(reader: &mut ContentReader) -> Result<Option<u32>, PartFault>
    ensures gives { Gives result reader.new (reading.optional_index_at reader.old) }
    ensures within { length reader.new ≤ length reader.old }
{
    if reader.take_mark(b'(') {
        Ok(Some(index(reader)?))
    } else {
        Ok(None)
    }
}

// `port` or `port(index)`
#[tactic(auto, unfolding(crate::specs::Reader::port_bit_at))]
fn port_bit(alloc: Global, reader: &mut ContentReader) -> Result<PortBit, PartFault>
    ensures gives { Gives result reader.new (reading.port_bit_at reader.old) }
    ensures within { length reader.new ≤ length reader.old }
{
    let port = reader.name(alloc)?;
    let index = optional_index(reader)?;
    Ok(PortBit { port, index })
}

// `*`, `port` or `port(index)`
#[tactic(auto, unfolding(crate::specs::Reader::row_port_at))]
fn row_port(alloc: Global, reader: &mut ContentReader) -> Result<Option<PortBit>, PartFault>
    ensures gives { Gives result reader.new (reading.row_port_at reader.old) }
    ensures within { length reader.new ≤ length reader.old }
{
    if reader.take_mark(b'*') {
        Ok(None)
    } else {
        Ok(Some(port_bit(alloc, reader)?))
    }
}

// `control, value, Z`
#[tactic(auto, unfolding(crate::specs::Reader::disable_at))]
fn disable(reader: &mut ContentReader) -> Result<Disable, PartFault>
    ensures gives { Gives result reader.new (reading.disable_at reader.old) }
    ensures within { length reader.new ≤ length reader.old }
{
    let control = reader.integer()?;
    reader.mark(b',')?;
    let value = reader.bit()?;
    reader.mark(b',')?;
    reader.key(b"Z")?;
    Ok(Disable { control, value })
}

#[tactic(auto, unfolding(crate::specs::Reader::optional_disable_at))]
fn optional_disable(reader: &mut ContentReader) -> Result<Option<Disable>, PartFault>
    ensures gives { Gives result reader.new (reading.optional_disable_at reader.old) }
    ensures within { length reader.new ≤ length reader.old }
{
    if reader.take_mark(b',') {
        Ok(Some(disable(reader)?))
    } else {
        Ok(None)
    }
}

// `number (cell,`
#[tactic(auto, unfolding(crate::specs::Reader::row_head_at))]
fn row_head(reader: &mut ContentReader) -> Result<(u32, BoundaryKind), PartFault>
    ensures gives { Gives result reader.new (reading.row_head_at reader.old) }
    ensures within { length reader.new ≤ length reader.old }
{
    let number = reader.integer()?;
    reader.mark(b'(')?;
    let cell = reader.cell()?;
    reader.mark(b',')?;
    Ok((number, cell))
}

// `port, function,`
#[tactic(auto, unfolding(crate::specs::Reader::row_role_at))]
fn row_role(
    alloc: Global,
    reader: &mut ContentReader,
) -> Result<(Option<PortBit>, Function), PartFault>
    ensures gives { Gives result reader.new (reading.row_role_at reader.old) }
    ensures within { length reader.new ≤ length reader.old }
{
    let port = row_port(alloc, reader)?;
    reader.mark(b',')?;
    let function = reader.function()?;
    reader.mark(b',')?;
    Ok((port, function))
}

// `safe)`, or with the three fields of a disable value
#[tactic(auto, unfolding(crate::specs::Reader::row_values_at))]
fn row_values(reader: &mut ContentReader) -> Result<(Safe, Option<Disable>), PartFault>
    ensures gives { Gives result reader.new (reading.row_values_at reader.old) }
    ensures within { length reader.new ≤ length reader.old }
{
    let safe = reader.safe()?;
    let disable = optional_disable(reader)?;
    reader.mark(b')')?;
    Ok((safe, disable))
}

/// `number (cell, port, function, safe)`, or with the three fields of a disable value
#[tactic(auto, unfolding(crate::specs::Reader::row_at))]
pub fn row(alloc: Global, reader: &mut ContentReader) -> Result<RowEntry, PartFault>
    ensures gives { Gives result reader.new (reading.row_at reader.old) }
    ensures within { length reader.new ≤ length reader.old }
{
    let (number, cell) = row_head(reader)?;
    let (port, function) = row_role(alloc, reader)?;
    let (safe, disable) = row_values(reader)?;
    Ok(RowEntry {
        number,
        cell,
        port,
        function,
        safe,
        disable,
    })
}
