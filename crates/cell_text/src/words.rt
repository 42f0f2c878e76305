// Words of a library's lines, and what they name.
ghost use Rattle.std.specs.Prelude.{◌≡◌, ◌≤◌, length, take, position, IfOk, slice_index_or, []};
ghost use Rattle.std.specs.Str.{bytes_eq};
ghost use Rattle.word_cutter.specs.LinesWords.{words_of};
ghost use Rattle.texts.specs.Repeated.{texts};
ghost use Rattle.cell_text.specs.Words as words;
ghost use Rattle.cell_text.specs.Rules.{name_in};

use cell_library::{FlopKind, Kind, Step, own_kind_of};
use texts::OutOfMemory;
use word_cutter::lines::next_word;

/// No line of a cell has more words: a key, a name, an output, 16 inputs, a colon and 64 steps.
const MOST_WORDS: usize = 84;

/// The first 85 words of a line.
pub(crate) fn gather_words<'a>(line: &'a [u8], words: &mut Vec<&'a [u8]>) -> Result<(), OutOfMemory>
    ensures { IfOk result (λ _. texts words.new.items ≡ take 85 (words_of line.now)) }
{
    words.clear();
    let mut line = line;
    while words.len() <= MOST_WORDS {
        let (word, rest) = next_word(line);
        if word.is_empty() {
            break;
        }
        words.push(word)?;
        line = rest;
    }
    Ok(())
}

/// The second word of a line.
pub fn name_in(line: &[u8]) -> &[u8]
    ensures { result.now ≡ name_in (words_of line.now) }
{
    let (_, rest) = next_word(line);
    let (name, _) = next_word(rest);
    name
}

pub(crate) fn is_colon(word: &[u8]) -> bool
    ensures { result ≡ words.is_colon word.now }
{
    word == b":".as_slice()
}

/// The kind of flip-flop of this name.
pub(crate) fn flop_named(word: &[u8]) -> Option<FlopKind>
    ensures { result ≡ words.flop_named word.now }
{
    match own_kind_of(word) {
        Some(Kind::Flop(kind)) => Some(kind),
        _ => None,
    }
}

fn step_named(word: &[u8]) -> Option<Step>
    ensures { result ≡ words.step_named word.now }
{
    if word == b"0".as_slice() {
        Some(Step::Const(false))
    } else if word == b"1".as_slice() {
        Some(Step::Const(true))
    } else if word == b"not".as_slice() {
        Some(Step::Not)
    } else if word == b"and".as_slice() {
        Some(Step::And)
    } else if word == b"or".as_slice() {
        Some(Step::Or)
    } else if word == b"xor".as_slice() {
        Some(Step::Xor)
    } else if word == b"mux".as_slice() {
        Some(Step::Mux)
    } else {
        None
    }
}

// The first place of a name.
fn place_of(names: &[&[u8]], word: &[u8]) -> Option<usize>
    ensures { result ≡ position (λ name. bytes_eq name.now word.now) names.now }
{
    names.iter().position(|name| *name == word)
}

/// The step of a word.
#[tactic(auto, using(crate::proofs::Borrowed::position_texts))]
pub(crate) fn step_of(inputs: &[&[u8]], word: &[u8]) -> Option<Step>
    requires { length inputs.now ≤ 16 }
    ensures { result ≡ words.step_of (texts inputs.now) word.now }
{
    match place_of(inputs, word) {
        Some(place) => Some(Step::Input(place as u32)),
        None => step_named(word),
    }
}
