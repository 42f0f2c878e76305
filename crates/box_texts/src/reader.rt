// A library with boxes from its text: first the forms and the order of all lines, then the names, then what stands
// behind them.
ghost use Rattle.std.specs.Prelude.{◌≡◌, ◌<◌, ◌≤◌, ◌+◌, ◌^◌, ◌++◌, ◌∷◌, [], None, Some, map, IfErr, IfOk, IsTrue, OnOk, false, length};
ghost use Rattle.word_cutter.specs.LinesWords.{words_of, kept_lines};
ghost use Rattle.texts.specs.First.{or_else, first_in};
ghost use Rattle.texts.specs.Repeated.{texts};
ghost use Rattle.cell_library.specs.Sound.{IsLibrary};
ghost use Rattle.cell_text.specs.Reader.{rows_of, IsFirst};
ghost use Rattle.box_texts.specs.Boxes as boxes;
ghost use Rattle.box_texts.specs.Faults as faults;
ghost use Rattle.box_texts.specs.Forms as forms;
ghost use Rattle.box_texts.specs.Grammar.{SpellsBoxes};
ghost use Rattle.box_texts.specs.Rules as rules;
ghost use Rattle.box_texts.specs.Reader as reading;

use crate::box_cells::{bare_cell, box_in};
use crate::forms::{LineForm, form_behind, is_version};
use crate::names::find_barred_name;
use crate::words::gather_words;
use box_model::{BoxCell, BoxLibrary};
use cell_library::{Library, own_names_are_exact};
use cell_text::{LibFault, add_cells, name_in, read_library};
use std::alloc::Global;
use texts::{OutOfMemory, Row, Text};
use word_cutter::lines::LineReader;

/// How many lines a library has at most behind its first.
const LIMIT: u64 = 4096;

// The lines behind the first, of which no more than the limit are kept: those of cells, those of boxes, and the names
// of cuts; and their count.
#[derive(Drop)]
pub(crate) struct Kept<'a> {
    pub(crate) cells: Vec<&'a [u8]>,
    pub(crate) boxes: Vec<&'a [u8]>,
    pub(crate) cuts: Vec<&'a [u8]>,
    pub(crate) count: u64,
}

impl<'a> Kept<'a> {
    fn new(alloc: Global) -> Kept<'a>
        ensures { reading.Keeps [] result }
    {
        Kept {
            cells: Vec::new(alloc),
            boxes: Vec::new(alloc),
            cuts: Vec::new(alloc),
            count: 0,
        }
    }

    // Adds a line to those of its form.
    #[tactic(auto, using(crate::proofs::KeptRows::cell_added, crate::proofs::KeptRows::box_added, crate::proofs::KeptRows::cut_added))]
    fn add(&mut self, form: LineForm, line: &'a [u8]) -> Result<(), OutOfMemory>
        ensures line { OnOk result (reading.IsAdded form (words_of line.now) self.old self.new) }
        ensures count { self.new.count ≡ self.old.count }
    {
        match form {
            LineForm::Cell => self.cells.push(line)?,
            LineForm::Box => self.boxes.push(line)?,
            LineForm::Cut => self.cuts.push(name_in(line))?,
        }
        Ok(())
    }

    #[tactic(auto, using(crate::proofs::KeptRows::noted_there, crate::proofs::KeptRows::noted_full))]
    fn note(&mut self, form: LineForm, line: &'a [u8]) -> Result<(), OutOfMemory>
        requires { self.old.count + 1 < 2 ^ 64 }
        ensures { OnOk result (reading.IsNoted form (words_of line.now) self.old self.new) }
    {
        if self.count < LIMIT {
            self.add(form, line)?;
        }
        self.count += 1;
        Ok(())
    }
}

// The lines from here on.
#[tactic(auto, using(crate::proofs::KeptRows::begins, crate::proofs::KeptRows::goes_on, crate::proofs::KeptRows::ends, crate::proofs::KeptRows::bad_line, crate::proofs::KeptRows::room, crate::proofs::KeptRows::told_first))]
fn keep_lines<'a>(alloc: Global, reader: &mut LineReader<'a>) -> Result<Kept<'a>, LibFault>
    requires { length reader.old.rows < 2 ^ 64 }
    ensures kept { IfOk result (reading.IsKept reader.old.rows) }
    ensures fault { IfErr result (λ f. IsFirst f (faults.line_fault reader.old.rows)) }
{
    let mut kept = Kept::new(alloc);
    let mut words = Vec::new(alloc);
    let mut before = LineForm::Cell;
    while let Some(line) = reader.line() {
        match form_behind(before, line, &mut words)? {
            Some(form) => {
                kept.note(form, line)?;
                before = form;
                reader.pass();
            }
            None => {
                return Err(LibFault::LibLine {
                    line: reader.number(),
                });
            }
        }
    }
    Ok(kept)
}

// The first line is `boxes 1`.
fn has_boxes(bytes: &[u8]) -> bool
    ensures { result ≡ faults.is_begun (kept_lines bytes.now) }
{
    match LineReader::new(bytes).line() {
        Some(line) => is_version(line),
        None => false,
    }
}

// The lines behind the first.
fn read_lines(alloc: Global, bytes: &[u8]) -> Result<Kept<'_>, LibFault>
    ensures kept { IfOk result (reading.IsKept (faults.later_lines bytes.now)) }
    ensures fault { IfErr result (λ f. IsFirst f (faults.line_fault (faults.later_lines bytes.now))) }
{
    let mut reader = LineReader::new(bytes);
    reader.pass();
    keep_lines(alloc, &mut reader)
}

// The boxes of lines, in their order.
#[tactic(auto, using(crate::proofs::KeptRows::next_box, crate::proofs::KeptRows::bad_box, crate::proofs::KeptRows::all_boxes))]
fn boxes_of(alloc: Global, lines: &[&[u8]]) -> Result<Row<BoxCell>, LibFault>
    ensures boxes { IfOk result (λ found. map boxes.box_in (rows_of lines.now) ≡ map Some found) }
    ensures fault { IfErr result (λ f. IsFirst f (first_in rules.box_fault (rows_of lines.now))) }
{
    let mut found = Row::new(alloc);
    let mut words = Vec::new(alloc);
    for line in lines {
        gather_words(*line, &mut words)?;
        match box_in(alloc, words.as_slice())? {
            Some(cell) => found.push(cell)?,
            None => {
                return Err(LibFault::LibBody {
                    name: Text::from_bytes(alloc, name_in(*line))?,
                });
            }
        }
    }
    Ok(found)
}

// The cells, and a listed gate for each box behind them.
#[tactic(auto, using(crate::proofs::Named::can_add_bare))]
fn with_bare_cells(alloc: Global, cells: Library, found: &[BoxCell]) -> Result<Library, OutOfMemory>
    requires { IsLibrary (cells ++ map boxes.bare_of found.now) }
    ensures { IfOk result (λ library. library ≡ cells ++ map boxes.bare_of found.now) }
{
    let mut library = cells;
    for cell in found {
        library.add(bare_cell(alloc, cell.name.as_bytes())?)?;
    }
    Ok(library)
}

fn texts_of(alloc: Global, names: &[&[u8]]) -> Result<Row<Text>, OutOfMemory>
    ensures { IfOk result (λ row. row ≡ texts names.now) }
{
    let mut row = Row::new(alloc);
    for name in names {
        row.push(Text::from_bytes(alloc, *name)?)?;
    }
    Ok(row)
}

// The library of lines that have their forms and names.
#[tactic(auto, using(crate::proofs::KeptRows::cells_can, crate::proofs::KeptRows::library_can, crate::proofs::KeptRows::cell_body, crate::proofs::KeptRows::box_body))]
fn library_of(alloc: Global, kept: &Kept<'_>) -> Result<BoxLibrary, LibFault>
    requires { reading.CanBeBoxes kept.now }
    ensures library { IfOk result (reading.IsReadOf kept.now) }
    ensures fault { IfErr result (λ f. IsFirst f (reading.body_fault kept.now)) }
{
    own_names_are_exact();
    let cells = add_cells(alloc, kept.cells.as_slice())?;
    let boxes = boxes_of(alloc, kept.boxes.as_slice())?;
    let cells = with_bare_cells(alloc, cells, boxes.as_slice())?;
    let cuts = texts_of(alloc, kept.cuts.as_slice())?;
    Ok(BoxLibrary { cells, boxes, cuts })
}

// The library of a text that begins with `boxes 1`.
#[tactic(auto, using(crate::proofs::KeptRows::line_told, crate::proofs::KeptRows::many_told, crate::proofs::KeptRows::name_told, crate::proofs::KeptRows::body_told))]
fn read_boxed(alloc: Global, bytes: &[u8]) -> Result<BoxLibrary, LibFault>
    requires { IsTrue (faults.is_begun (kept_lines bytes.now)) }
    ensures spelled { IfOk result (SpellsBoxes bytes.now) }
    ensures fault { IfErr result (faults.IsFault bytes.now) }
{
    own_names_are_exact();
    let kept = read_lines(alloc, bytes)?;
    if kept.count > LIMIT {
        return Err(LibFault::TooMany { count: kept.count });
    }
    match find_barred_name(
        alloc,
        kept.cells.as_slice(),
        kept.boxes.as_slice(),
        kept.cuts.as_slice(),
    )? {
        Some(name) => Err(LibFault::LibName {
            name: Text::from_bytes(alloc, name)?,
        }),
        None => library_of(alloc, &kept),
    }
}

// The library of a text that begins otherwise, without boxes and cuts.
#[tactic(auto, using(crate::proofs::KeptRows::plain_told, crate::proofs::KeptRows::plain_spelled))]
fn read_plain(alloc: Global, bytes: &[u8]) -> Result<BoxLibrary, LibFault>
    requires { faults.is_begun (kept_lines bytes.now) ≡ false }
    ensures spelled { IfOk result (SpellsBoxes bytes.now) }
    ensures fault { IfErr result (faults.IsFault bytes.now) }
{
    Ok(BoxLibrary {
        cells: read_library(alloc, bytes)?,
        boxes: Row::new(alloc),
        cuts: Row::new(alloc),
    })
}

/// The library that the bytes spell, or the first fault.
pub fn read_boxes(alloc: Global, bytes: &[u8]) -> Result<BoxLibrary, LibFault>
    ensures spelled { IfOk result (SpellsBoxes bytes.now) }
    ensures fault { IfErr result (faults.IsFault bytes.now) }
{
    if has_boxes(bytes) {
        read_boxed(alloc, bytes)
    } else {
        read_plain(alloc, bytes)
    }
}
