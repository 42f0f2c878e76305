// What a line of a plan is seen as.
ghost use Rattle.std.specs.Prelude.{◌≡◌, MatchOption, Some, None, codes};
ghost use Rattle.word_cutter.specs.LinesWords.{words_of};
ghost use Rattle.texts.specs.Repeated.{bytes_of};
ghost use Rattle.plan_texts.specs.Forms as forms;

use crate::forms::{
    bits_of, cell_named, is_clock, is_name, is_pin, is_prefix, length_of, version_of,
};
use crate::written::CodeGroups;
use cell_library::{Bits, BoundaryKind};
use word_cutter::lines::{after_key, four_words, one_word, three_words, two_words};

// The one word behind the key.
fn word_behind<'a>(key: &[u8], line: &'a [u8]) -> Option<&'a [u8]>
    ensures { bytes_of result ≡ forms.word_behind key.now (words_of line.now) }
{
    match after_key(key, line) {
        None => None,
        Some(rest) => one_word(rest),
    }
}

/// `plan 1` or `plan 2`
pub fn version_line(line: &[u8]) -> Option<u32>
    ensures { result ≡ forms.version_line (words_of line.now) }
{
    match word_behind(b"plan", line) {
        None => None,
        Some(word) => version_of(word),
    }
}

/// The key and a name.
pub fn name_line<'a>(key: &[u8], line: &'a [u8]) -> Option<&'a [u8]>
    ensures { bytes_of result ≡ forms.word_line key.now forms.is_name (words_of line.now) }
{
    match word_behind(key, line) {
        Some(word) if is_name(word) => Some(word),
        _ => None,
    }
}

/// `prefix TEXT`
pub fn prefix_line(line: &[u8]) -> Option<&[u8]>
    ensures { bytes_of result ≡ forms.word_line (codes "prefix") forms.is_prefix (words_of line.now) }
{
    match word_behind(b"prefix", line) {
        Some(word) if is_prefix(word) => Some(word),
        _ => None,
    }
}

/// `clock DIGITS`
pub fn clock_line(line: &[u8]) -> Option<&[u8]>
    ensures { bytes_of result ≡ forms.word_line (codes "clock") forms.is_clock (words_of line.now) }
{
    match word_behind(b"clock", line) {
        Some(word) if is_clock(word) => Some(word),
        _ => None,
    }
}

/// `length N`
pub fn length_line(line: &[u8]) -> Option<u32>
    ensures { result ≡ forms.length_line (words_of line.now) }
{
    match word_behind(b"length", line) {
        None => None,
        Some(word) => length_of(word),
    }
}

/// `capture BITS`
pub fn capture_line(line: &[u8]) -> Option<Bits>
    ensures { result ≡ forms.capture_line (words_of line.now) }
{
    match word_behind(b"capture", line) {
        None => None,
        Some(word) => bits_of(word),
    }
}

/// The key, a name and a physical pin.
pub fn tap_line<'a>(key: &[u8], line: &'a [u8]) -> Option<(&'a [u8], &'a [u8])>
    ensures { MatchOption result (forms.tap_line key.now (words_of line.now)
        ≡ None) (λ (name, pin). forms.tap_line key.now (words_of line.now)
        ≡ Some (record { name = name.now; pin = pin.now })) }
{
    let Some(rest) = after_key(key, line) else {
        return None;
    };
    match two_words(rest) {
        Some((name, pin)) if is_name(name) && is_pin(pin) => Some((name, pin)),
        _ => None,
    }
}

/// `opcode NAME BITS`
pub fn opcode_line(line: &[u8]) -> Option<(&[u8], Bits)>
    ensures { MatchOption result (forms.opcode_line (words_of line.now)
        ≡ None) (λ (name, bits). forms.opcode_line (words_of line.now)
        ≡ Some (record { name = name.now; bits = bits })) }
{
    let Some(rest) = after_key(b"opcode", line) else {
        return None;
    };
    let Some((name, bits)) = two_words(rest) else {
        return None;
    };
    match bits_of(bits) {
        Some(bits) if is_name(name) => Some((name, bits)),
        _ => None,
    }
}

fn groups_of(a: &[u8], b: &[u8], c: &[u8], d: &[u8]) -> Option<CodeGroups>
    ensures { result ≡ forms.groups_if (a.now, b.now, c.now, d.now) }
{
    match (bits_of(a), bits_of(b), bits_of(c), bits_of(d)) {
        (Some(version), Some(part), Some(manufacturer), Some(mark)) => Some(CodeGroups {
            version,
            part,
            manufacturer,
            mark,
        }),
        _ => None,
    }
}

/// `idcode BITS BITS BITS BITS`
pub fn idcode_line(line: &[u8]) -> Option<CodeGroups>
    ensures { result ≡ forms.idcode_line (words_of line.now) }
{
    let Some(rest) = after_key(b"idcode", line) else {
        return None;
    };
    match four_words(rest) {
        None => None,
        Some((a, b, c, d)) => groups_of(a, b, c, d),
    }
}

/// `usercode BITS`, in version 2 alone.
pub fn user_line(version: u32, line: &[u8]) -> Option<Bits>
    ensures { result ≡ forms.user_line version (words_of line.now) }
{
    if version != 2 {
        return None;
    }
    match word_behind(b"usercode", line) {
        None => None,
        Some(word) => bits_of(word),
    }
}

/// `control BC_1` or `control BC_2`
pub fn control_line(line: &[u8]) -> Option<BoundaryKind>
    ensures { result ≡ forms.control_line (words_of line.now) }
{
    let Some(word) = word_behind(b"control", line) else {
        return None;
    };
    match cell_named(word) {
        Some(BoundaryKind::Bc1) => Some(BoundaryKind::Bc1),
        Some(BoundaryKind::Bc2) => Some(BoundaryKind::Bc2),
        _ => None,
    }
}

/// `pin PORT PIN CELL`
pub fn pin_line(line: &[u8]) -> Option<(&[u8], &[u8], BoundaryKind)>
    ensures { MatchOption result (forms.pin_line (words_of line.now)
        ≡ None) (λ (port, pin, cell). forms.pin_line (words_of line.now)
        ≡ Some (record { port = port.now; pin = pin.now; cell = cell })) }
{
    let Some(rest) = after_key(b"pin", line) else {
        return None;
    };
    let Some((port, pin, cell)) = three_words(rest) else {
        return None;
    };
    match cell_named(cell) {
        Some(cell) if is_pin(pin) => Some((port, pin, cell)),
        _ => None,
    }
}
