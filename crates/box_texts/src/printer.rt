// The canonical text of a library with boxes.
ghost use Rattle.std.specs.Prelude.{◌≡◌, ◌++◌, ◌∷◌, ◌-◌, ◌≤◌, [], codes, length, map, filter, take, IfOk, OnOk};
ghost use Rattle.std.specs.List.{flat_map};
ghost use Rattle.std.specs.Fmt.{decimal};
ghost use Rattle.word_cutter.specs.Rows.{behind_blank, row_text, rows_text};
ghost use Rattle.cell_text.specs.Grammar.{cell_words};
ghost use Rattle.box_texts.specs.Canonical as canonical;
ghost use Rattle.box_texts.specs.Grammar.{SpellsBoxes, cut_words};
ghost use Rattle.box_texts.specs.Sound.{IsBoxLibrary, is_dir};

use box_model::{BoxCell, BoxDir, BoxLibrary, BoxPort, Range};
use cell_library::Library;
use cell_text::{put_cell, put_head, put_word};
use itoa::Buffer;
use std::alloc::Global;
use texts::{OutOfMemory, Text};
use word_cutter::lines::{put_two, texts_of_rows_read_back};

fn put_number(text: &mut Text, number: u32) -> Result<(), OutOfMemory>
    ensures { OnOk result (text.new ≡ text.old ++ decimal number) }
{
    let mut digits = Buffer::new();
    text.append(digits.format(number).as_bytes())
}

// `[L:R]`
#[tactic(auto, using(crate::proofs::Written::bounds_put))]
fn put_range(text: &mut Text, range: Range) -> Result<(), OutOfMemory>
    ensures { OnOk result (text.new ≡ text.old ++ canonical.bounds_text range) }
{
    text.push(b'[')?;
    put_number(text, range.left)?;
    text.push(b':')?;
    put_number(text, range.right)?;
    text.push(b']')
}

fn is_dir(one: BoxDir, other: BoxDir) -> bool
    ensures { result ≡ is_dir one other }
{
    one == other
}

// A port behind a blank.
#[tactic(auto, using(crate::proofs::Written::scalar_put, crate::proofs::Written::vector_put))]
fn put_port(text: &mut Text, port: &BoxPort) -> Result<(), OutOfMemory>
    ensures { OnOk result (text.new ≡ text.old ++ behind_blank (canonical.port_text port.now)) }
{
    put_word(text, port.name.as_bytes())?;
    match port.range {
        Some(range) => put_range(text, range),
        None => Ok(()),
    }
}

// The ports of one direction, each behind a blank.
#[tactic(auto, using(crate::proofs::Written::port_there, crate::proofs::Written::port_passed, crate::proofs::Written::ports_put))]
fn put_ports(text: &mut Text, ports: &[BoxPort], dir: BoxDir) -> Result<(), OutOfMemory>
    ensures { OnOk result (text.new ≡ text.old ++ flat_map behind_blank (canonical.port_words dir ports.now)) }
{
    for port in ports {
        if is_dir(port.dir, dir) {
            put_port(text, port)?;
        }
    }
    Ok(())
}

#[tactic(auto, using(crate::proofs::Written::box_put))]
fn put_box(text: &mut Text, cell: &BoxCell) -> Result<(), OutOfMemory>
    ensures { OnOk result (text.new ≡ text.old ++ row_text (canonical.box_words cell.now)) }
{
    put_head(text, b"box", cell.name.as_bytes())?;
    put_ports(text, cell.ports.as_slice(), BoxDir::Gives)?;
    put_word(text, b":")?;
    put_ports(text, cell.ports.as_slice(), BoxDir::Takes)?;
    text.push(b'\n')
}

#[tactic(auto, using(crate::proofs::Written::cell_row_put))]
fn put_cells(text: &mut Text, library: &Library, count: u32) -> Result<(), OutOfMemory>
    requires { count ≤ length library.now }
    ensures { OnOk result (text.new ≡ text.old ++ rows_text (map cell_words (take count library.now))) }
{
    for number in 0..count {
        put_cell(text, library, library.cell(number))?;
    }
    Ok(())
}

#[tactic(auto, using(crate::proofs::Written::box_row_put, crate::proofs::Written::box_rows_put))]
fn put_boxes(text: &mut Text, boxes: &[BoxCell]) -> Result<(), OutOfMemory>
    ensures { OnOk result (text.new ≡ text.old ++ rows_text (map canonical.box_words boxes.now)) }
{
    for cell in boxes {
        put_box(text, cell)?;
    }
    Ok(())
}

#[tactic(auto, using(crate::proofs::Written::cut_row_put, crate::proofs::Written::cut_rows_put))]
fn put_cuts(text: &mut Text, cuts: &[Text]) -> Result<(), OutOfMemory>
    ensures { OnOk result (text.new ≡ text.old ++ rows_text (map cut_words cuts.now)) }
{
    for name in cuts {
        put_two(text, b"cut", name.as_bytes())?;
    }
    Ok(())
}

// How many cells stand before the listed gates of boxes.
fn own_count(library: &BoxLibrary) -> u32
    ensures count { result ≡ length library.now.cells - length library.now.boxes }
    ensures within { result ≤ length library.now.cells }
{
    let count = library.cells.count();
    if library.boxes.len() < count as usize {
        count - library.boxes.len() as u32
    } else {
        0
    }
}

#[tactic(auto, using(crate::proofs::Written::all_put))]
fn canonical_text(alloc: Global, library: &BoxLibrary) -> Result<Text, OutOfMemory>
    ensures { IfOk result (λ text. text ≡ canonical.canonical_boxes library.now) }
{
    let mut text = Text::new(alloc);
    put_two(&mut text, b"boxes", b"1")?;
    put_cells(&mut text, &library.cells, own_count(library))?;
    put_boxes(&mut text, library.boxes.as_slice())?;
    put_cuts(&mut text, library.cuts.as_slice())?;
    Ok(text)
}

/// The canonical text of a library, which spells it.
#[tactic(auto, using(crate::proofs::ReadsBack::canonical_spells))]
pub fn print_boxes(alloc: Global, library: &BoxLibrary) -> Result<Text, OutOfMemory>
    ensures canonical { IfOk result (λ text. text ≡ canonical.canonical_boxes library.now) }
    ensures reads_back { IfOk result (λ text. IsBoxLibrary library.now → SpellsBoxes text library.now) }
{
    texts_of_rows_read_back();
    canonical_text(alloc, library)
}
