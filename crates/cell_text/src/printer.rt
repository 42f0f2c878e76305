// The canonical text of a library.
ghost use Rattle.std.specs.Prelude.{◌≡◌, ◌++◌, ◌∷◌, [], codes, map, IfOk, OnOk};
ghost use Rattle.std.specs.List.{flat_map};
ghost use Rattle.cell_library.specs.Library.{flop_name};
ghost use Rattle.word_cutter.specs.Rows.{behind_blank, row_text, rows_text};
ghost use Rattle.cell_text.specs.Grammar as grammar;
ghost use Rattle.cell_text.specs.Words.{step_word};

use cell_library::{Body, FlopKind, Kind, Library, ListedCell, Step, cell_name};
use std::alloc::Global;
use texts::{OutOfMemory, Text};
use word_cutter::lines::{put_two, texts_of_rows_read_back};

/// A blank and a word.
pub fn put_word(text: &mut Text, word: &[u8]) -> Result<(), OutOfMemory>
    ensures { OnOk result (text.new ≡ text.old ++ behind_blank word.now) }
{
    text.push(b' ')?;
    text.append(word)
}

fn put_words(text: &mut Text, words: &[Text]) -> Result<(), OutOfMemory>
    ensures { OnOk result (text.new ≡ text.old ++ flat_map behind_blank words.now) }
{
    for word in words {
        put_word(text, word.as_bytes())?;
    }
    Ok(())
}

fn step_word<'a>(inputs: &'a [Text], step: Step) -> &'a [u8]
    ensures { result.now ≡ step_word inputs.now step }
{
    match step {
        Step::Input(place) => match inputs.get(place as usize) {
            Some(name) => name.as_bytes(),
            None => b"",
        },
        Step::Const(false) => b"0",
        Step::Const(true) => b"1",
        Step::Not => b"not",
        Step::And => b"and",
        Step::Or => b"or",
        Step::Xor => b"xor",
        Step::Mux => b"mux",
    }
}

fn put_steps(text: &mut Text, inputs: &[Text], steps: &[Step]) -> Result<(), OutOfMemory>
    ensures { OnOk result (text.new
        ≡ text.old ++ flat_map behind_blank (map (step_word inputs.now) steps.now)) }
{
    for step in steps {
        put_word(text, step_word(inputs, *step))?;
    }
    Ok(())
}

// The colon and the steps behind it.
fn put_body(text: &mut Text, inputs: &[Text], steps: &[Step]) -> Result<(), OutOfMemory>
    ensures { OnOk result (text.new ≡ text.old
        ++ flat_map behind_blank (codes ":" ∷ map (step_word inputs.now) steps.now)) }
{
    put_word(text, b":")?;
    put_steps(text, inputs, steps)
}

fn flop_name(library: &Library, kind: FlopKind) -> &[u8]
    ensures { result.now ≡ flop_name kind.edge kind.reset }
{
    match cell_name(library, Kind::Flop(kind)) {
        Some(name) => name,
        None => unreachable!(),
    }
}

/// The first two words of a line.
pub fn put_head(text: &mut Text, key: &[u8], name: &[u8]) -> Result<(), OutOfMemory>
    ensures { OnOk result (text.new ≡ text.old ++ key.now ++ behind_blank name.now) }
{
    text.append(key)?;
    put_word(text, name)
}

#[tactic(auto, using(crate::proofs::Printed::gate_text))]
fn put_gate(text: &mut Text, cell: &ListedCell, steps: &[Step]) -> Result<(), OutOfMemory>
    ensures { OnOk result (text.new ≡ text.old ++ row_text
        (grammar.body_words cell.now.name cell.now.output cell.now.inputs (Body.Gate steps.now))) }
{
    put_head(text, b"gate", cell.name.as_bytes())?;
    put_word(text, cell.output.as_bytes())?;
    put_words(text, cell.inputs.as_slice())?;
    put_body(text, cell.inputs.as_slice(), steps)?;
    text.push(b'\n')
}

#[tactic(auto, using(crate::proofs::Printed::flop_text))]
fn put_flop(
    text: &mut Text,
    library: &Library,
    cell: &ListedCell,
    kind: FlopKind,
) -> Result<(), OutOfMemory>
    ensures { OnOk result (text.new ≡ text.old ++ row_text
        (grammar.body_words cell.now.name cell.now.output cell.now.inputs (Body.Flop kind))) }
{
    put_head(text, b"flop", cell.name.as_bytes())?;
    put_word(text, flop_name(library, kind))?;
    put_word(text, cell.output.as_bytes())?;
    put_words(text, cell.inputs.as_slice())?;
    text.push(b'\n')
}

/// The line of a cell.
pub fn put_cell(text: &mut Text, library: &Library, cell: &ListedCell) -> Result<(), OutOfMemory>
    ensures { OnOk result (text.new ≡ text.old ++ row_text (grammar.cell_words cell.now)) }
{
    match &cell.body {
        Body::Gate(steps) => put_gate(text, cell, steps.as_slice()),
        Body::Flop(kind) => put_flop(text, library, cell, *kind),
    }
}

#[tactic(auto, using(crate::proofs::Rows::cell_put, crate::proofs::Rows::cells_put))]
fn put_cells(text: &mut Text, library: &Library) -> Result<(), OutOfMemory>
    ensures { OnOk result (text.new ≡ text.old ++ rows_text (map grammar.cell_words library.now)) }
{
    for number in 0..library.count() {
        put_cell(text, library, library.cell(number))?;
    }
    Ok(())
}

fn canonical_text(alloc: Global, library: &Library) -> Result<Text, OutOfMemory>
    ensures { IfOk result (λ text. text ≡ grammar.canonical_library library.now) }
{
    let mut text = Text::new(alloc);
    put_two(&mut text, b"cells", b"1")?;
    put_cells(&mut text, library)?;
    Ok(text)
}

/// The canonical text of a library, which spells it.
#[tactic(auto, using(crate::proofs::Rows::library_spells))]
pub fn print_library(alloc: Global, library: &Library) -> Result<Text, OutOfMemory>
    ensures canonical { IfOk result (λ text. text ≡ grammar.canonical_library library.now) }
    ensures reads_back { IfOk result (λ text. grammar.SpellsLibrary text library.now) }
{
    texts_of_rows_read_back();
    let _ = library.count();
    canonical_text(alloc, library)
}
