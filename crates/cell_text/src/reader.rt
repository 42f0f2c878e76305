// A library from its text: first the forms of all lines, then the names, then ports and steps.
ghost use Rattle.std.specs.Prelude.{◌≡◌, ◌<◌, ◌≤◌, ◌+◌, ◌^◌, None, Some, map, IfErr, IfOk, length};
ghost use Rattle.word_cutter.specs.LinesWords.{kept_lines};
ghost use Rattle.texts.specs.First.{first_in};
ghost use Rattle.cell_text.specs.Cells as cells;
ghost use Rattle.cell_text.specs.Faults as faults;
ghost use Rattle.cell_text.specs.Grammar.{SpellsLibrary};
ghost use Rattle.cell_text.specs.Rules as rules;
ghost use Rattle.cell_text.specs.Reader as reading;

use crate::cells::cell_in;
use crate::fault::LibFault;
use crate::lines::{is_cell_line, is_version};
use crate::names::find_barred;
use crate::words::{gather_words, name_in};
use cell_library::{Library, own_names_are_exact};
use std::alloc::Global;
use texts::{OutOfMemory, Text};
use word_cutter::lines::LineReader;

/// How many cells a library has at most.
const LIMIT: usize = 4096;

// The lines of cells, of which no more than the limit are kept, and their count.
#[derive(Drop)]
pub(crate) struct Kept<'a> {
    pub(crate) lines: Vec<&'a [u8]>,
    pub(crate) count: u64,
}

impl<'a> Kept<'a> {
    #[tactic(auto, using(crate::proofs::Gathered::noted_there, crate::proofs::Gathered::noted_full, crate::proofs::Gathered::counted))]
    fn note(&mut self, line: &'a [u8]) -> Result<(), OutOfMemory>
        requires { self.old.count + 1 < 2 ^ 64 }
        ensures { reading.IsNoted self.old self.new line.now result }
    {
        if self.lines.len() < LIMIT {
            self.lines.push(line)?;
        }
        self.count += 1;
        Ok(())
    }
}

// The lines from here on.
#[tactic(auto, using(crate::proofs::Gathered::begins, crate::proofs::Gathered::goes_on, crate::proofs::Gathered::ends, crate::proofs::Gathered::bad_line, crate::proofs::Gathered::room))]
fn keep_lines<'a>(alloc: Global, reader: &mut LineReader<'a>) -> Result<Kept<'a>, LibFault>
    requires { length reader.old.rows < 2 ^ 64 }
    ensures kept { IfOk result (reading.IsKept reader.old.rows) }
    ensures fault { IfErr result (reading.IsBadLine reader.old.rows) }
{
    let mut kept = Kept {
        lines: Vec::new(alloc),
        count: 0,
    };
    let mut words = Vec::new(alloc);
    while let Some(line) = reader.line() {
        if !is_cell_line(line, &mut words)? {
            return Err(LibFault::LibLine {
                line: reader.number(),
            });
        }
        kept.note(line)?;
        reader.pass();
    }
    Ok(kept)
}

// The first line is `cells 1`.
fn is_begun(reader: &LineReader<'_>) -> bool
    ensures { result ≡ reading.is_begun reader.now.rows }
{
    match reader.line() {
        Some(line) => is_version(line),
        None => false,
    }
}

#[tactic(auto, using(crate::proofs::ReadBack::not_begun, crate::proofs::ReadBack::lines_read, crate::proofs::ReadBack::later_bad, crate::proofs::ReadBack::rows_fit))]
fn read_lines(alloc: Global, bytes: &[u8]) -> Result<Kept<'_>, LibFault>
    ensures kept { IfOk result (reading.AreLines bytes.now) }
    ensures fault { IfErr result (faults.IsFault bytes.now) }
{
    let mut reader = LineReader::new(bytes);
    if !is_begun(&reader) {
        return Err(LibFault::LibLine {
            line: reader.number(),
        });
    }
    reader.pass();
    keep_lines(alloc, &mut reader)
}

/// The cells of lines, in their order.
#[tactic(auto, using(crate::proofs::Loop::starts, crate::proofs::Loop::next_can, crate::proofs::Loop::next_is, crate::proofs::Loop::body_is, crate::proofs::Loop::all_added))]
pub fn add_cells(alloc: Global, lines: &[&[u8]]) -> Result<Library, LibFault>
    requires can { reading.CanBeCells (reading.rows_of lines.now) }
    ensures cells { IfOk result (λ library. map cells.cell_in (reading.rows_of lines.now) ≡ map Some library) }
    ensures fault { IfErr result (λ f. reading.IsFirst f (first_in rules.body_fault (reading.rows_of lines.now))) }
{
    own_names_are_exact();
    let mut library = Library::new(alloc);
    let mut words = Vec::new(alloc);
    for line in lines {
        gather_words(*line, &mut words)?;
        match cell_in(alloc, words.as_slice())? {
            Some(cell) => library.add(cell)?,
            None => {
                return Err(LibFault::LibBody {
                    name: Text::from_bytes(alloc, name_in(*line))?,
                });
            }
        }
    }
    Ok(library)
}

/// The library that the bytes spell, or the first fault.
#[tactic(auto, using(crate::proofs::ReadBack::many_told, crate::proofs::ReadBack::name_told, crate::proofs::ReadBack::can_be, crate::proofs::ReadBack::body_told, crate::proofs::ReadBack::library_told))]
pub fn read_library(alloc: Global, bytes: &[u8]) -> Result<Library, LibFault>
    ensures spelled { IfOk result (SpellsLibrary bytes.now) }
    ensures fault { IfErr result (faults.IsFault bytes.now) }
{
    own_names_are_exact();
    let kept = read_lines(alloc, bytes)?;
    if kept.count > LIMIT as u64 {
        return Err(LibFault::TooMany { count: kept.count });
    }
    match find_barred(alloc, kept.lines.as_slice())? {
        Some(name) => {
            return Err(LibFault::LibName {
                name: Text::from_bytes(alloc, name)?,
            });
        }
        None => {}
    }
    add_cells(alloc, kept.lines.as_slice())
}
