ghost use Rattle.std.specs.Prelude.{◌≡◌, IfOk};
ghost use Rattle.bsdl_device.specs.Shape as shape;
ghost use Rattle.bsdl_contents.specs.Outcomes.{Tells};
ghost use Rattle.bsdl_contents.specs.Reader as reading;

use crate::fault::PartFault;
use crate::lists;
use crate::reader::ContentReader;
use bsdl_device::{AccessEntry, OpcodeEntry, PinEntry, RowEntry, StringAttribute};
use cell_library::Bits;
use std::alloc::Global;
use texts::{OutOfMemory, Row, Text};

/// The strings' bytes without anything between.
#[tactic(auto, using(crate::proofs::JoinedStrings::joined_more, crate::proofs::JoinedStrings::joined_past))]
pub fn joined(alloc: Global, strings: &[Text]) -> Result<Text, OutOfMemory>
    ensures { IfOk result (λ bytes. bytes ≡ shape.joined strings.now) }
{
    let mut bytes = Text::new(alloc);
    for string in strings {
        bytes.append(string.as_bytes())?;
    }
    Ok(bytes)
}

/// What the strings of the pin map hold.
#[tactic(auto, unfolding(crate::specs::Reader::section_at))]
pub fn pin_map(alloc: Global, strings: &[Text]) -> Result<Row<PinEntry>, PartFault>
    ensures { Tells result (reading.section_at reading.pin_map_at strings.now) }
{
    let bytes = joined(alloc, strings)?;
    let mut reader = ContentReader::new(bytes.as_bytes());
    let entries = lists::pin_entries(alloc, &mut reader)?;
    reader.end()?;
    Ok(entries)
}

/// What the strings of INSTRUCTION_OPCODE hold.
#[tactic(auto, unfolding(crate::specs::Reader::section_at))]
pub fn opcodes(alloc: Global, strings: &[Text]) -> Result<Row<OpcodeEntry>, PartFault>
    ensures { Tells result (reading.section_at reading.opcodes_at strings.now) }
{
    let bytes = joined(alloc, strings)?;
    let mut reader = ContentReader::new(bytes.as_bytes());
    let entries = lists::opcodes(alloc, &mut reader)?;
    reader.end()?;
    Ok(entries)
}

/// What the strings of INSTRUCTION_CAPTURE hold.
#[tactic(auto, unfolding(crate::specs::Reader::section_at))]
pub fn capture(alloc: Global, strings: &[Text]) -> Result<Bits, PartFault>
    ensures { Tells result (reading.section_at reading.bits_at strings.now) }
{
    let bytes = joined(alloc, strings)?;
    let mut reader = ContentReader::new(bytes.as_bytes());
    let bits = reader.bits()?;
    reader.end()?;
    Ok(bits)
}

// The code, of 32 bits.
#[tactic(auto, unfolding(crate::specs::Reader::section_at))]
fn code(alloc: Global, strings: &[Text]) -> Result<u32, PartFault>
    ensures { Tells result (reading.section_at reading.code_at strings.now) }
{
    let bytes = joined(alloc, strings)?;
    let mut reader = ContentReader::new(bytes.as_bytes());
    let code = reader.code()?;
    reader.end()?;
    Ok(code)
}

/// The code where there is the attribute, and none elsewhere.
pub fn optional_code(
    alloc: Global,
    attribute: &Option<StringAttribute>,
) -> Result<Option<u32>, PartFault>
    ensures { Tells result (reading.optional_code_at attribute.now) }
{
    match attribute {
        Some(attribute) => Ok(Some(code(alloc, attribute.strings.as_slice())?)),
        None => Ok(None),
    }
}

/// What the strings of REGISTER_ACCESS hold.
#[tactic(auto, unfolding(crate::specs::Reader::section_at))]
pub fn accesses(alloc: Global, strings: &[Text]) -> Result<Row<AccessEntry>, PartFault>
    ensures { Tells result (reading.section_at reading.accesses_at strings.now) }
{
    let bytes = joined(alloc, strings)?;
    let mut reader = ContentReader::new(bytes.as_bytes());
    let entries = lists::accesses(alloc, &mut reader)?;
    reader.end()?;
    Ok(entries)
}

/// What the strings of BOUNDARY_REGISTER hold.
#[tactic(auto, unfolding(crate::specs::Reader::section_at))]
pub fn rows(alloc: Global, strings: &[Text]) -> Result<Row<RowEntry>, PartFault>
    ensures { Tells result (reading.section_at reading.rows_at strings.now) }
{
    let bytes = joined(alloc, strings)?;
    let mut reader = ContentReader::new(bytes.as_bytes());
    let entries = lists::rows(alloc, &mut reader)?;
    reader.end()?;
    Ok(entries)
}
