// Entries of the design's own registers, with commas between them.
ghost use Rattle.std.specs.Prelude.{◌≤◌, length};
ghost use Rattle.bsdl_device.specs.Runs.{content_words};
ghost use Rattle.bsdl_contents.specs.Reader.{list_at};
ghost use Rattle.bsdl_contents.specs.Outcomes.{Gives, Tells};
ghost use Rattle.bsdl_contents.specs.EntriesReader as reading;

use crate::fault::PartFault;
use crate::reader::ContentReader;
use bsdl_device::registers::RegisterEntry;
use std::alloc::Global;
use texts::{Row, Text};

// `NAME [`
#[tactic(auto, unfolding(crate::specs::EntriesReader::head_at))]
fn head(alloc: Global, reader: &mut ContentReader) -> Result<Text, PartFault>
    ensures gives { Gives result reader.new (reading.head_at reader.old) }
    ensures within { length reader.new ≤ length reader.old }
{
    let name = reader.name(alloc)?;
    reader.mark(b'[')?;
    Ok(name)
}

// `length ] (`
#[tactic(auto, unfolding(crate::specs::EntriesReader::length_at))]
fn length(reader: &mut ContentReader) -> Result<u32, PartFault>
    ensures gives { Gives result reader.new (reading.length_at reader.old) }
    ensures within { length reader.new ≤ length reader.old }
{
    let length = reader.integer()?;
    reader.mark(b']')?;
    reader.mark(b'(')?;
    Ok(length)
}

// `INSTRUCTION )`
#[tactic(auto, unfolding(crate::specs::EntriesReader::instruction_at))]
fn instruction(alloc: Global, reader: &mut ContentReader) -> Result<Text, PartFault>
    ensures gives { Gives result reader.new (reading.instruction_at reader.old) }
    ensures within { length reader.new ≤ length reader.old }
{
    let instruction = reader.identifier(alloc)?;
    reader.mark(b')')?;
    Ok(instruction)
}

// `NAME [length] (INSTRUCTION)`
#[tactic(auto, unfolding(crate::specs::EntriesReader::entry_at))]
fn entry(alloc: Global, reader: &mut ContentReader) -> Result<RegisterEntry, PartFault>
    ensures gives { Gives result reader.new (reading.entry_at reader.old) }
    ensures within { length reader.new ≤ length reader.old }
{
    let name = head(alloc, reader)?;
    let length = length(reader)?;
    let instruction = instruction(alloc, reader)?;
    Ok(RegisterEntry {
        name,
        length,
        instruction,
    })
}

fn list(alloc: Global, reader: &mut ContentReader) -> Result<Row<RegisterEntry>, PartFault>
    ensures gives { Gives result reader.new (list_at reading.entry_at reader.old) }
    ensures within { length reader.new ≤ length reader.old }
{
    let mut list = Row::new(alloc);
    list.push(entry(alloc, reader)?)?;
    while reader.take_mark(b',') {
        list.push(entry(alloc, reader)?)?;
    }
    Ok(list)
}

/// The entries that the bytes hold.
pub fn entries(alloc: Global, bytes: &[u8]) -> Result<Row<RegisterEntry>, PartFault>
    ensures { Tells result (reading.entries_in (content_words bytes.now)) }
{
    let mut reader = ContentReader::new(bytes);
    let entries = list(alloc, &mut reader)?;
    reader.end()?;
    Ok(entries)
}
