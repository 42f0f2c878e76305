ghost use Rattle.std.specs.Prelude.{◌≡◌, ◌++◌, ◌∷◌, [], map, IfOk, OnOk};
ghost use Rattle.signal_values.specs.Values.{show_byte};
ghost use Rattle.scan_vectors.specs.Grammar as grammar;
ghost use Rattle.scan_vectors.specs.Canonical.{canonical_words, canonical_text, canonical_lines, IsLines};
ghost use Rattle.word_cutter.specs.Rows.{row_text, rows_text};

use crate::lines::{Act, Line, Lines};
use signal_values::{PinSig, show};
use std::alloc::Global;
use texts::{OutOfMemory, Text};
use word_cutter::lines::{put_three, texts_of_rows_read_back};

fn act_word(act: Act) -> &'static [u8]
    ensures { result.now ≡ grammar.act_word act }
{
    match act {
        Act::Start => b"start",
        Act::Set => b"set",
        Act::Expect => b"expect",
    }
}

fn put_words(text: &mut Text, act: Act, pin: &Text, value: PinSig) -> Result<(), OutOfMemory>
    ensures { OnOk result (text.new ≡ text.old
        ++ row_text (grammar.act_word act ∷ pin.now ∷ (show_byte value ∷ []) ∷ [])) }
{
    let letter = [show(value)];
    put_three(text, act_word(act), pin.as_bytes(), &letter)
}

fn put_line(text: &mut Text, line: &Line) -> Result<(), OutOfMemory>
    ensures { OnOk result (text.new ≡ text.old ++ row_text (canonical_words line.now)) }
{
    match line {
        Line::Start { pin, value } => put_words(text, Act::Start, pin, *value),
        Line::Set { pin, value } => put_words(text, Act::Set, pin, *value),
        Line::Expect { pin, value } => put_words(text, Act::Expect, pin, *value),
    }
}

fn put_lines(text: &mut Text, list: &[Line]) -> Result<(), OutOfMemory>
    ensures { OnOk result (text.new ≡ text.old ++ rows_text (map canonical_words list.now)) }
{
    for line in list {
        put_line(text, line)?;
    }
    Ok(())
}

fn canonical(alloc: Global, list: &[Line]) -> Result<Text, OutOfMemory>
    ensures { IfOk result (λ text. text ≡ canonical_text list.now) }
{
    let mut text = Text::from_bytes(alloc, b"events 1\n")?;
    put_lines(&mut text, list)?;
    Ok(text)
}

/// The canonical text of event lines: the header and a line each, whatever their numbers were.
#[tactic(auto, using(crate::proofs::Printed::canonical_spells))]
pub fn print_events(alloc: Global, lines: &Lines) -> Result<Text, OutOfMemory>
    requires { IsLines lines.now.list }
    ensures canonical { IfOk result (λ text. text ≡ canonical_text lines.now.list) }
    ensures reads_back { IfOk result (λ text. grammar.SpellsLines text (canonical_lines lines.now.list)) }
{
    texts_of_rows_read_back();
    canonical(alloc, lines.list.as_slice())
}
