// Numbers and kinds of boundary cells as they are written.
ghost use Rattle.std.specs.Prelude.{◌≡◌, ◌++◌, OnOk};
ghost use Rattle.std.specs.Fmt.{decimal};
ghost use Rattle.bsdl_device.specs.Grammar as words;
ghost use Rattle.bsdl_device.specs.Canonical as text_of;

use cell_library::{Bits, BoundaryKind};
use word_cutter::lower_texts::{OutOfMemory, Text};

/// Adds a number in decimal, without leading zeros.
#[tactic(auto, using(std::proofs::lemmas::Fmt::decimal_step, std::proofs::lemmas::Fmt::decimal_digit, std::proofs::lemmas::List::append_assoc))]
pub fn put_number(text: &mut Text, number: u64) -> Result<(), OutOfMemory>
    ensures { OnOk result (text.new ≡ text.old ++ decimal number) }
{
    if number >= 10 {
        put_number(text, number / 10)?;
    }
    text.push(b'0' + (number % 10) as u8)
}

/// Adds the last bits of a number, so many.
#[tactic(auto, using(crate::proofs::RunsBits::no_bits_text, crate::proofs::RunsBits::bits_text_step, std::proofs::lemmas::List::append_assoc))]
pub fn put_bits(text: &mut Text, len: u32, value: u32) -> Result<(), OutOfMemory>
    ensures { OnOk result (text.new ≡ text.old ++ text_of.bits_text len value) }
{
    if len == 0 {
        return Ok(());
    }
    put_bits(text, len - 1, value / 2)?;
    text.push(b'0' + (value % 2) as u8)
}

/// Adds a pattern of bits.
pub fn put_pattern(text: &mut Text, bits: Bits) -> Result<(), OutOfMemory>
    ensures { OnOk result (text.new ≡ text.old ++ text_of.pattern_text bits) }
{
    put_bits(text, bits.len, bits.value)
}

/// The word of a kind of boundary cell.
pub fn cell_word(kind: BoundaryKind) -> &'static [u8]
    ensures { result.now ≡ words.cell_word kind }
{
    match kind {
        BoundaryKind::Bc1 => b"BC_1",
        BoundaryKind::Bc2 => b"BC_2",
        BoundaryKind::Bc4 => b"BC_4",
        BoundaryKind::Bc7 => b"BC_7",
    }
}
