// What a line of a text of registers is seen as.
ghost use Rattle.std.specs.Prelude.{◌≡◌, ◌&&◌, IfOk, length, nat_le, take};
ghost use Rattle.word_cutter.specs.LinesWords.{words_of};
ghost use Rattle.status_fitting.specs.Lines as lines;

use crate::register_texts::plan::StatusRow;
use bsdl_device::runs::numbers::binary;
use bsdl_device::runs::runs::is_pattern;
use cell_library::Bits;
use std::alloc::Global;
use texts::{OutOfMemory, Row, Text};
use word_cutter::lines::{after_key, next_word, two_words};

/// A register has no more words.
const MOST_WORDS: usize = 256;

/// `status 1`
pub fn is_first(line: &[u8]) -> bool
    ensures { result ≡ lines.is_first (words_of line.now) }
{
    match two_words(line) {
        None => false,
        Some((key, number)) => key == b"status".as_slice() && number == b"1".as_slice(),
    }
}

// At most 255 bytes.
fn is_name(word: &[u8]) -> bool
    ensures { result ≡ nat_le (length word.now) 255 }
{
    word.len() <= 255
}

// A pattern.
fn bits_of(word: &[u8]) -> Option<Bits>
    ensures { result ≡ lines.bits_if word.now }
{
    if !is_pattern(word) {
        return None;
    }
    Some(Bits {
        len: word.len() as u32,
        value: binary(word),
    })
}

// The first 257 words of a line.
fn gather_words(alloc: Global, line: &[u8]) -> Result<Row<Text>, OutOfMemory>
    ensures { IfOk result (λ words. words ≡ take 257 (words_of line.now)) }
{
    let mut words = Row::new(alloc);
    let mut line = line;
    while words.len() <= MOST_WORDS {
        let (word, rest) = next_word(line);
        if word.is_empty() {
            return Ok(words);
        }
        words.push(Text::from_bytes(alloc, word)?)?;
        line = rest;
    }
    Ok(words)
}

fn is_word_count(count: usize) -> bool
    ensures { result ≡ (nat_le 1 count && nat_le count 256) }
{
    1 <= count && count <= MOST_WORDS
}

// The words of a line of 1 to 256.
fn words_in(alloc: Global, line: &[u8]) -> Result<Option<Row<Text>>, OutOfMemory>
    ensures { IfOk result (λ found. found ≡ lines.words_if (words_of line.now)) }
{
    let words = gather_words(alloc, line)?;
    if is_word_count(words.len()) {
        Ok(Some(words))
    } else {
        Ok(None)
    }
}

fn row_of(
    alloc: Global,
    name: &[u8],
    instr: &[u8],
    bits: Bits,
    line: &[u8],
) -> Result<Option<StatusRow>, OutOfMemory>
    ensures { IfOk result (λ found. found
        ≡ lines.with_words name.now instr.now bits (lines.words_if (words_of line.now))) }
{
    match words_in(alloc, line)? {
        None => Ok(None),
        Some(words) => Ok(Some(StatusRow {
            name: Text::from_bytes(alloc, name)?,
            instr: Text::from_bytes(alloc, instr)?,
            bits,
            words,
        })),
    }
}

fn row_in(
    alloc: Global,
    name: &[u8],
    instr: &[u8],
    bits: &[u8],
    line: &[u8],
) -> Result<Option<StatusRow>, OutOfMemory>
    ensures { IfOk result (λ found. found
        ≡ lines.row_if name.now instr.now bits.now (words_of line.now)) }
{
    match bits_of(bits) {
        Some(bits) if is_name(name) => row_of(alloc, name, instr, bits, line),
        _ => Ok(None),
    }
}

// What stands behind the key `register`.
fn register_in(alloc: Global, line: &[u8]) -> Result<Option<StatusRow>, OutOfMemory>
    ensures { IfOk result (λ found. found ≡ lines.register_in (words_of line.now)) }
{
    let (name, rest) = next_word(line);
    let (instr, rest) = next_word(rest);
    let (bits, rest) = next_word(rest);
    row_in(alloc, name, instr, bits, rest)
}

/// `register NAME INSTR BITS WORD {WORD}`
pub fn register_line(alloc: Global, line: &[u8]) -> Result<Option<StatusRow>, OutOfMemory>
    ensures { IfOk result (λ found. found ≡ lines.register_line (words_of line.now)) }
{
    match after_key(b"register", line) {
        None => Ok(None),
        Some(rest) => register_in(alloc, rest),
    }
}
