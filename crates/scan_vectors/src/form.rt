// What a line is of, by its words.
ghost use Rattle.std.specs.Prelude.{◌≡◌, ◌∷◌, []};
ghost use Rattle.word_cutter.specs.LinesWords.{words_of};
ghost use Rattle.scan_vectors.specs.Faults.{act_named, value_named, is_header};
ghost use Rattle.scan_vectors.specs.Forms.{HasShape, HasForm};

use crate::lines::Act;
use signal_values::{PinSig, read_sig};
use word_cutter::lines::{is_remark, next_word};

/// What a line is of: skipped, the header, an event, or none of these forms.
#[derive(Drop)]
pub enum Form<'a> {
    Skipped,
    Header,
    Event {
        act: Act,
        pin: &'a [u8],
        value: PinSig,
    },
    Other,
}

fn act_named(word: &[u8]) -> Option<Act>
    ensures { result ≡ act_named word.now }
{
    if word == b"start".as_slice() {
        Some(Act::Start)
    } else if word == b"set".as_slice() {
        Some(Act::Set)
    } else if word == b"expect".as_slice() {
        Some(Act::Expect)
    } else {
        None
    }
}

fn value_named(word: &[u8]) -> Option<PinSig>
    ensures { result ≡ value_named word.now }
{
    match word {
        [letter] => read_sig(*letter),
        _ => None,
    }
}

fn form_of_two<'a>(first: &[u8], second: &[u8]) -> Form<'a>
    ensures { HasShape (first.now ∷ second.now ∷ []) result }
{
    if first == b"events".as_slice() && second == b"1".as_slice() {
        Form::Header
    } else {
        Form::Other
    }
}

fn form_of_three<'a>(first: &[u8], pin: &'a [u8], value: &[u8]) -> Form<'a>
    ensures { HasShape (first.now ∷ pin.now ∷ value.now ∷ []) result }
{
    match (act_named(first), value_named(value)) {
        (Some(act), Some(value)) => Form::Event { act, pin, value },
        _ => Form::Other,
    }
}

/// What the line is of; it reads four words at most.
pub fn form_of(line: &[u8]) -> Form<'_>
    ensures { HasForm (words_of line.now) result }
{
    let (first, rest) = next_word(line);
    if first.is_empty() || is_remark(first) {
        return Form::Skipped;
    }
    let (second, rest) = next_word(rest);
    let (third, rest) = next_word(rest);
    let (fourth, _) = next_word(rest);
    if !fourth.is_empty() || second.is_empty() {
        Form::Other
    } else if third.is_empty() {
        form_of_two(first, second)
    } else {
        form_of_three(first, second, third)
    }
}
