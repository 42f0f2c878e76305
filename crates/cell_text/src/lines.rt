// The forms of a library's lines.
ghost use Rattle.std.specs.Prelude.{◌≡◌, ◌+◌, ◌<◌, ◌≤◌, [], length, take, drop, IfOk, None, Some, MatchOption};
ghost use Rattle.word_cutter.specs.LinesWords.{words_of};
ghost use Rattle.texts.specs.Repeated.{texts};
ghost use Rattle.cell_library.specs.Gates.{flop_operand_count};
ghost use Rattle.cell_text.specs.Lines as lines;

use crate::words::{flop_named, gather_words, is_colon};
use cell_library::{FlopKind, ResetTo};
use texts::OutOfMemory;
use word_cutter::lines::two_words;

/// `cells 1`
pub(crate) fn is_version(line: &[u8]) -> bool
    ensures { result ≡ lines.is_version (words_of line.now) }
{
    match two_words(line) {
        None => false,
        Some((key, number)) => key == b"cells".as_slice() && number == b"1".as_slice(),
    }
}

// The word at this place parts the words.
fn parts_at(words: &[&[u8]], place: usize) -> bool
    requires { place < length words.now }
    ensures { result ≡ lines.parts_at (texts words.now) place }
{
    let behind = words.len() - place - 1;
    is_colon(words[place]) && place <= 16 && 1 <= behind && behind <= 64
}

/// The place of the colon between inputs and steps.
#[tactic(auto, using(crate::proofs::Parts::parted_here, crate::proofs::Parts::parted_on, crate::proofs::Parts::parted_out))]
pub(crate) fn colon_place(words: &[&[u8]]) -> Option<usize>
    ensures { MatchOption result (lines.parted [] (texts words.now) ≡ None)
        (λ place. lines.IsParted (texts words.now) place) }
{
    for place in 0..words.len() {
        if parts_at(words, place) {
            return Some(place);
        }
    }
    None
}

fn operand_count(kind: FlopKind) -> usize
    ensures { result ≡ flop_operand_count kind.reset }
{
    match kind.reset {
        ResetTo::Nothing => 2,
        ResetTo::Zero | ResetTo::One => 3,
    }
}

/// An output, and as many inputs as the kind's operands.
pub(crate) fn takes(ports: &[&[u8]], kind: FlopKind) -> bool
    ensures { result ≡ lines.takes (texts ports.now) kind }
{
    ports.len() == 1 + operand_count(kind)
}

fn is_gate(words: &[&[u8]]) -> bool
    ensures { result ≡ lines.is_gate (texts words.now) }
{
    match words {
        [_, _, rest @ ..] => colon_place(rest).is_some(),
        _ => false,
    }
}

fn is_flop(words: &[&[u8]]) -> bool
    ensures { result ≡ lines.is_flop (texts words.now) }
{
    match words {
        [_, kind, ports @ ..] => match flop_named(*kind) {
            Some(kind) => takes(ports, kind),
            None => false,
        },
        _ => false,
    }
}

fn has_form(words: &[&[u8]]) -> bool
    ensures { result ≡ lines.is_cell_line (texts words.now) }
{
    match words {
        [] => false,
        [key, rest @ ..] => {
            if *key == b"gate".as_slice() {
                is_gate(rest)
            } else {
                *key == b"flop".as_slice() && is_flop(rest)
            }
        }
    }
}

/// Whether a line has the form of a cell's; `words` is room for its words.
#[tactic(auto, using(crate::proofs::Gathered::form_of_front))]
pub fn is_cell_line<'a>(line: &'a [u8], words: &mut Vec<&'a [u8]>) -> Result<bool, OutOfMemory>
    ensures { IfOk result (λ is. is ≡ lines.is_cell_line (words_of line.now)) }
{
    gather_words(line, words)?;
    Ok(has_form(words.as_slice()))
}
