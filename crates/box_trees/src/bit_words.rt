// Words that are a name and an index in brackets.
ghost use Rattle.std.specs.Prelude.{◌≡◌, ℕ, ◌-◌, ◌≤◌, ◌<◌, ◌≢◌, ◌++◌, ◌∷◌, [], List, length, min, slice_index, MatchOption};
ghost use Rattle.std.specs.Fmt.{decimal};
ghost use Rattle.std.specs.Str.{bytes_eq};
ghost use Rattle.list_laws.specs.Digits.{value_after};
ghost use Rattle.link_model.specs.Nets as ranges;
ghost use Rattle.box_trees.specs.HiddenNames.{IsBracketless, digits_within, holds_digits, indexed};

use itoa::Buffer;
use verilog_tree::Range;

/// A word by its last opening bracket: what stands before it, and what stands between it and the closing one.
#[derive(Drop)]
pub(crate) struct BitWord<'a> {
    pub(crate) name: &'a [u8],
    pub(crate) digits: &'a [u8],
}

// Where the bytes behind the last opening bracket begin; at the front where there is none.
fn behind_bracket(word: &[u8]) -> usize
    ensures within { result ≤ length word.now }
    ensures behind { (k : ℕ) → result ≤ k → k < length word.now → slice_index word.now k ≢ 91 }
    ensures bracket { 0 < result → slice_index word.now (result - 1) ≡ 91 }
{
    let mut start = word.len();
    while start > 0 && word[start - 1] != b'[' {
        start -= 1;
    }
    start
}

// The bytes before the last, where that is this one.
fn without_last(bytes: &[u8], last: u8) -> Option<&[u8]>
    ensures { MatchOption result ((front : List ℕ) → bytes.now ≢ front ++ last ∷ [])
        (λ front. bytes.now ≡ front.now ++ last ∷ []) }
{
    let count = bytes.len();
    if count == 0 || bytes[count - 1] != last {
        return None;
    }
    Some(&bytes[..count - 1])
}

/// The parts of a word that ends with a bracket.
pub(crate) fn part_word(word: &[u8]) -> Option<BitWord<'_>>
    ensures { MatchOption result ((name digits : List ℕ) → IsBracketless digits
        → word.now ≢ indexed name digits) (λ bit. (word.now ≡ indexed bit.name.now bit.digits.now)
        × IsBracketless bit.digits.now) }
{
    let start = behind_bracket(word);
    if start == 0 {
        return None;
    }
    match without_last(&word[start..], b']') {
        None => None,
        Some(digits) => Some(BitWord {
            name: &word[..start - 1],
            digits,
        }),
    }
}

// The value of digits, or the greatest that there is.
fn value_of(digits: &[u8]) -> u32
    ensures { result ≡ min (value_after 10 0 digits.now) 4294967295 }
{
    let mut value: u32 = 0;
    for digit in digits {
        value = value
            .saturating_mul(10)
            .saturating_add(u32::from(digit.saturating_sub(b'0')));
    }
    value
}

fn is_decimal(digits: &[u8], value: u32) -> bool
    ensures { result ≡ bytes_eq digits.now (decimal value) }
{
    let mut buffer = Buffer::new();
    digits == buffer.format(value).as_bytes()
}

fn is_within(range: Range, index: u32) -> bool
    ensures { result ≡ ranges.is_within range index }
{
    (range.left <= index && index <= range.right) || (range.right <= index && index <= range.left)
}

fn holds_digits(range: Range, digits: &[u8]) -> bool
    ensures { result ≡ holds_digits range digits.now }
{
    let index = value_of(digits);
    is_within(range, index) && is_decimal(digits, index)
}

/// Whether the digits are an index of a vector.
pub(crate) fn digits_within(range: Option<Range>, digits: &[u8]) -> bool
    ensures { result ≡ digits_within range digits.now }
{
    match range {
        None => false,
        Some(range) => holds_digits(range, digits),
    }
}
