// The forms of a library's lines, where it may have boxes.
ghost use Rattle.std.specs.Prelude.{◌≡◌, IfOk, Some, None, if◌then◌else◌};
ghost use Rattle.word_cutter.specs.LinesWords.{words_of};
ghost use Rattle.texts.specs.Repeated.{texts};
ghost use Rattle.cell_text.specs.Words.{is_colon};
ghost use Rattle.std.specs.List.{list_any};
ghost use Rattle.box_texts.specs.Forms as forms;

use crate::words::{gather_words, is_colon};
use cell_text::is_cell_line;
use texts::OutOfMemory;
use word_cutter::lines::{next_word, one_word, two_words};

/// How many ports a box has at most.
const MOST_PORTS: usize = 1024;

/// What a line behind the first is of. Lines stand in the order of these variants.
#[derive(Clone, Copy, PartialEq, Eq)]
pub(crate) enum LineForm {
    Cell,
    Box,
    Cut,
}

/// `boxes 1`
pub(crate) fn is_version(line: &[u8]) -> bool
    ensures { result ≡ forms.is_version (words_of line.now) }
{
    match two_words(line) {
        None => false,
        Some((key, number)) => key == b"boxes".as_slice() && number == b"1".as_slice(),
    }
}

// Whether a line of this form may stand behind one of the other.
fn may_follow(form: LineForm, before: LineForm) -> bool
    ensures { result ≡ forms.may_follow form before }
{
    match form {
        LineForm::Cell => before == LineForm::Cell,
        LineForm::Box => before != LineForm::Cut,
        LineForm::Cut => true,
    }
}

fn has_colon(words: &[&[u8]]) -> bool
    ensures { result ≡ list_any (λ word. is_colon word.now) words.now }
{
    words.iter().any(|word| is_colon(*word))
}

// `NAME {OUT} : {IN}`
fn is_box(words: &[&[u8]]) -> bool
    ensures { result ≡ forms.is_box (texts words.now) }
{
    match words {
        [] => false,
        [_, ports @ ..] => ports.len() <= MOST_PORTS + 1 && has_colon(ports),
    }
}

fn form_if(form: LineForm, has: bool) -> Option<LineForm>
    ensures { result ≡ forms.form_if form has }
{
    if has { Some(form) } else { None }
}

// The form of a line; `words` is room for its words.
#[tactic(auto, using(crate::proofs::Keyed::form_box, crate::proofs::Keyed::form_cut, crate::proofs::Keyed::form_cell))]
fn form_of<'a>(line: &'a [u8], words: &mut Vec<&'a [u8]>) -> Result<Option<LineForm>, OutOfMemory>
    ensures { IfOk result (λ form. form ≡ forms.form_of (words_of line.now)) }
{
    let (key, rest) = next_word(line);
    if key == b"box".as_slice() {
        gather_words(rest, words)?;
        return Ok(form_if(LineForm::Box, is_box(words.as_slice())));
    }
    if key == b"cut".as_slice() {
        return Ok(form_if(LineForm::Cut, one_word(rest).is_some()));
    }
    Ok(form_if(LineForm::Cell, is_cell_line(line, words)?))
}

/// The form of a line, if it may stand behind one of the form before; `words` is room for its words.
pub(crate) fn form_behind<'a>(
    before: LineForm,
    line: &'a [u8],
    words: &mut Vec<&'a [u8]>,
) -> Result<Option<LineForm>, OutOfMemory>
    ensures { IfOk result (λ form. form ≡ forms.form_behind before (words_of line.now)) }
{
    match form_of(line, words)? {
        Some(form) => Ok(form_if(form, may_follow(form, before))),
        None => Ok(None),
    }
}
