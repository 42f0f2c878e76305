ghost use Rattle.std.specs.Prelude.{◌≡◌, ◌++◌, IfErr, IfOk};
ghost use Rattle.edge_io.specs.Shelf.{NoneFell, SameTold, WhereTold};
ghost use Rattle.command_edges.specs.Lengths.{IsShort};
ghost use Rattle.command_edges.specs.EdgeFaults.{StandsInReading};
ghost use Rattle.command_edges.specs.Libraries.{name_of, names_if};
ghost use Rattle.command_edges.specs.Names.{names_of};
ghost use Rattle.command_edges.specs.Seen.{shelf_seen};
ghost use Rattle.command_edges.specs.Texts.{AreRead, StandsInReadings};

use command_faults::Fault;
use edge_io::shelf::Shelf;
use edge_io::whole::{ReadIssue, read_whole};
use std::alloc::Global;
use texts::{Row, Text};

// The longest text that is read, in bytes.
const LIMIT: u64 = 16_777_216;

/// Reads the whole text that lies under a name.
pub fn read_text<'a, S: Shelf>(
    alloc: Global,
    shelf: &mut S,
    name: &'a str,
) -> Result<Text, Fault<'a>>
    ensures ok { IfOk result (λ text. WhereTold (S.held shelf.old name.now) (λ bytes. text ≡ bytes)) }
    ensures within { IfOk result IsShort }
    ensures fault { IfErr result (StandsInReading name.now
        (shelf_seen S.tells S.held S.written S.faults shelf.old shelf.new)) }
    ensures held { SameTold (S.held shelf.old) (S.held shelf.new) }
    ensures written { SameTold (S.written shelf.old) (S.written shelf.new) }
    ensures later { NoneFell (S.faults shelf.old) (S.faults shelf.new) }
{
    match read_whole(alloc, shelf, name, LIMIT) {
        Ok(text) => Ok(text),
        Err(ReadIssue::ReadFault) => Err(Fault::ReadFault { name }),
        Err(ReadIssue::TooLong) => Err(Fault::TooLong { name }),
        Err(ReadIssue::OutOfMemory) => Err(Fault::OutOfMemory),
    }
}

/// Reads the texts under these names, in order, up to the first that can't be read.
pub fn read_all<'a, S: Shelf>(
    alloc: Global,
    shelf: &mut S,
    names: &[&'a str],
) -> Result<Row<Text>, Fault<'a>>
    ensures read { IfOk result (AreRead (S.held shelf.old) (names_of names.now)) }
    ensures fault { IfErr result (StandsInReadings (names_of names.now)
        (shelf_seen S.tells S.held S.written S.faults shelf.old shelf.new)) }
    ensures held { SameTold (S.held shelf.old) (S.held shelf.new) }
    ensures written { SameTold (S.written shelf.old) (S.written shelf.new) }
    ensures later { NoneFell (S.faults shelf.old) (S.faults shelf.new) }
{
    let mut texts = Row::new(alloc);
    for name in names {
        let text = read_text(alloc, shelf, *name)?;
        texts.push(text)?;
    }
    Ok(texts)
}

/// Reads the texts under these names, and behind them that of a library, if there is one.
pub fn read_with_library<'a, S: Shelf>(
    alloc: Global,
    shelf: &mut S,
    names: &[&'a str],
    library: Option<&'a str>,
) -> Result<Row<Text>, Fault<'a>>
    ensures read { IfOk result (AreRead (S.held shelf.old)
        (names_of names.now ++ names_if (name_of library.entry))) }
    ensures fault { IfErr result (StandsInReadings (names_of names.now ++ names_if (name_of library.entry))
        (shelf_seen S.tells S.held S.written S.faults shelf.old shelf.new)) }
    ensures held { SameTold (S.held shelf.old) (S.held shelf.new) }
    ensures written { SameTold (S.written shelf.old) (S.written shelf.new) }
    ensures later { NoneFell (S.faults shelf.old) (S.faults shelf.new) }
{
    let mut texts = read_all(alloc, shelf, names)?;
    let Some(name) = library else {
        return Ok(texts);
    };
    let text = read_text(alloc, shelf, name)?;
    texts.push(text)?;
    Ok(texts)
}
