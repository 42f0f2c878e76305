// The words of a box's ports: a name, and `[L:R]` behind it where the port is a vector.
ghost use Rattle.std.specs.Prelude.{◌≡◌, ◌≤◌, ◌<◌, ◌^◌, length, take, drop, IfOk, MatchOption, None, Some};
ghost use Rattle.std.specs.List.{prefix_len};
ghost use Rattle.verilog_lexicon.specs.Bytes.{is_digit, is_name_byte};
ghost use Rattle.verilog_lexicon.specs.Pieces.{IsNumber, value_from};
ghost use Rattle.box_texts.specs.Ports as ports;

use box_model::{BoxDir, BoxPort, Range};
use cell_text::is_port_name;
use std::alloc::Global;
use texts::{OutOfMemory, Text};
use verilog_lexicon::keywords::is_name_byte;
use word_cutter::with_digit;

// The value of 1 to 9 digits.
fn value_of(digits: &[u8]) -> u32
    requires { IsNumber digits.now }
    ensures { result ≡ value_from 0 digits.now }
{
    let mut value = 0;
    for (count, digit) in digits.iter().enumerate() {
        value = with_digit(value, count, *digit);
    }
    value
}

// How many digits stand in front.
#[tactic(auto, using(word_cutter::proofs::Cut::passed_len, word_cutter::proofs::Cut::passed_within))]
fn digit_count(bytes: &[u8]) -> usize
    ensures count { result ≡ prefix_len is_digit bytes.now }
    ensures within { result ≤ length bytes.now }
{
    bytes
        .iter()
        .take_while(|byte| byte.is_ascii_digit())
        .count()
}

// The number in front, of 1 to 9 digits, and what follows it.
#[tactic(auto, using(crate::proofs::PortTexts::is_number))]
fn number_first(bytes: &[u8]) -> Option<(u32, &[u8])>
    ensures { MatchOption result (ports.number_first bytes.now
        ≡ None) (λ (number, rest). ports.number_first bytes.now ≡ Some (number, rest.now)) }
{
    let (digits, rest) = bytes.split_at(digit_count(bytes));
    if digits.is_empty() || digits.len() > 9 {
        return None;
    }
    Some((value_of(digits), rest))
}

// The right bound behind the left one.
fn range_from(left: u32, bytes: &[u8]) -> Option<Range>
    ensures { result ≡ ports.range_from left bytes.now }
{
    let [b':', bytes @ ..] = bytes else {
        return None;
    };
    match number_first(bytes) {
        Some((right, rest)) if rest == b"]".as_slice() => Some(Range { left, right }),
        _ => None,
    }
}

// The range of `[L:R]`.
fn range_in(bytes: &[u8]) -> Option<Range>
    ensures { result ≡ ports.range_in bytes.now }
{
    let [b'[', bytes @ ..] = bytes else {
        return None;
    };
    match number_first(bytes) {
        Some((left, rest)) => range_from(left, rest),
        None => None,
    }
}

// How many bytes of a name stand in front.
#[tactic(auto, using(word_cutter::proofs::Cut::passed_len, word_cutter::proofs::Cut::passed_within))]
fn name_length(word: &[u8]) -> usize
    ensures count { result ≡ prefix_len is_name_byte word.now }
    ensures within { result ≤ length word.now }
{
    word.iter().take_while(|byte| is_name_byte(**byte)).count()
}

fn port(
    alloc: Global,
    dir: BoxDir,
    name: &[u8],
    range: Option<Range>,
) -> Result<BoxPort, OutOfMemory>
    ensures { IfOk result (λ made. made ≡ ports.port dir name.now range) }
{
    Ok(BoxPort {
        name: Text::from_bytes(alloc, name)?,
        dir,
        range,
    })
}

/// The port that a word tells.
pub(crate) fn port_in(
    alloc: Global,
    dir: BoxDir,
    word: &[u8],
) -> Result<Option<BoxPort>, OutOfMemory>
    ensures { IfOk result (λ found. found ≡ ports.port_in dir word.now) }
{
    let (name, behind) = word.split_at(name_length(word));
    if !is_port_name(name) {
        return Ok(None);
    }
    if behind.is_empty() {
        return Ok(Some(port(alloc, dir, name, None)?));
    }
    match range_in(behind) {
        Some(range) => Ok(Some(port(alloc, dir, name, Some(range))?)),
        None => Ok(None),
    }
}
