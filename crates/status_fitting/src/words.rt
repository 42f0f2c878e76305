// The name and the index of a word.
ghost use Rattle.std.specs.Prelude.{◌≡◌, ℕ, ◌-◌, ◌<◌, ◌≤◌, [], ◌∷◌, ◌++◌, length, IsTrue, MatchOption, List, slice_index};
ghost use Rattle.std.specs.Bool.{IsFalse};
ghost use Rattle.std.specs.List.{AllByRecursion};
ghost use Rattle.verilog_lexicon.specs.Bytes.{is_digit};
ghost use Rattle.verilog_lexicon.specs.Pieces.{IsNumber, value_from};
ghost use Rattle.netlist_link.specs.Brackets.{IsOpenIndexed, IsSplit};
ghost use Rattle.netlist_link.specs.PinWords.{IsIndexed};

use word_cutter::with_digit;

/// A word that is a name with an index in brackets.
#[derive(Drop)]
pub struct IndexedWord<'a> {
    pub name: &'a [u8],
    pub index: u32,
}

// The value of the digits.
fn number_of(digits: &[u8]) -> u32
    requires { IsNumber digits.now }
    ensures { result ≡ value_from 0 digits.now }
{
    let mut value = 0;
    for (count, digit) in digits.iter().enumerate() {
        value = with_digit(value, count, *digit);
    }
    value
}

// Where the digits at the end of the bytes begin.
fn digits_from(bytes: &[u8]) -> usize
    ensures within { result ≤ length bytes.now }
    ensures digits { (k : ℕ) → result ≤ k → k < length bytes.now
        → IsTrue (is_digit (slice_index bytes.now k)) }
    ensures before { 0 < result → IsFalse (is_digit (slice_index bytes.now (result - 1))) }
{
    let mut start = bytes.len();
    while start > 0 && bytes[start - 1].is_ascii_digit() {
        start -= 1;
    }
    start
}

// Bytes, and the digits at their end.
#[derive(Drop)]
struct Digits<'a> {
    before: &'a [u8],
    digits: &'a [u8],
}

// Takes the digits at the end of the bytes apart.
fn split_digits(bytes: &[u8]) -> Digits<'_>
    ensures joined { bytes.now ≡ result.before.now ++ result.digits.now }
    ensures digits { AllByRecursion (λ c. IsTrue (is_digit c)) result.digits.now }
    ensures only { (name digits : List ℕ) → bytes.now ≡ name ++ 91 ∷ digits
        → AllByRecursion (λ c. IsTrue (is_digit c)) digits
        → IsSplit result.before.now result.digits.now name digits }
{
    let start = digits_from(bytes);
    let (before, digits) = bytes.split_at(start);
    Digits { before, digits }
}

// The bytes before the last, where that is this one.
fn without_last(bytes: &[u8], last: u8) -> Option<&[u8]>
    ensures { MatchOption result ((front : List ℕ) → bytes.now ≡ front ++ last ∷ []
        → ⊥) (λ front. bytes.now ≡ front.now ++ last ∷ []) }
{
    let count = bytes.len();
    if count == 0 || bytes[count - 1] != last {
        return None;
    }
    Some(&bytes[..count - 1])
}

/// The word's name and index, if it is a name and an index of 1 to 9 digits in brackets.
pub fn split_index(word: &[u8]) -> Option<IndexedWord<'_>>
    ensures { MatchOption result ((name : List ℕ) (index : ℕ) → IsIndexed word.now name index
        → ⊥) (λ found. IsIndexed word.now found.name.now found.index) }
{
    match without_last(word, b']') {
        Some(front) => split_front(front),
        None => None,
    }
}

// The name and index of a word without its closing bracket.
fn split_front(front: &[u8]) -> Option<IndexedWord<'_>>
    ensures { MatchOption result ((name : List ℕ) (index : ℕ) → IsOpenIndexed front.now name index
        → ⊥) (λ found. IsOpenIndexed front.now found.name.now found.index) }
{
    let split = split_digits(front);
    if split.digits.is_empty() || split.digits.len() > 9 {
        return None;
    }
    match without_last(split.before, b'[') {
        Some(name) => Some(IndexedWord {
            name,
            index: number_of(split.digits),
        }),
        None => None,
    }
}
