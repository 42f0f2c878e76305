// The values of digits, and patterns of ones.
ghost use Rattle.std.specs.Prelude.{◌≡◌, ◌==◌, ◌+◌, ◌*◌, ◌-◌, ◌^◌, ◌<◌, ◌≤◌, length, IsTrue};
ghost use Rattle.bsdl_lexicon.specs.Bytes.{is_digit};
ghost use Rattle.bsdl_device.specs.Runs.{value_after};
ghost use Rattle.std.specs.List.{list_all};
ghost use Rattle.bsdl_device.specs.Digits.{is_bit};

use cell_library::Bits;
use word_cutter::with_digit;

/// The value of decimal digits.
pub fn decimal(digits: &[u8]) -> u32
    requires few { length digits.now ≤ 9 }
    requires digits { IsTrue (list_all is_digit digits.now) }
    ensures { result ≡ value_after 10 0 digits.now }
{
    let mut value = 0;
    for i in 0..digits.len() {
        value = with_digit(value, i, digits[i]);
    }
    value
}

// The value with one bit more.
fn with_bit(value: u32, count: usize, bit: u8) -> u32
    requires small { value < 2 ^ count }
    requires few { count < 32 }
    requires bit { IsTrue (is_bit bit) }
    ensures value { result ≡ 2 * value + (bit - 48) }
    ensures fits { result < 2 ^ (count + 1) }
{
    2 * value + (bit - b'0') as u32
}

/// The value of bits, the last of which counts one.
#[tactic(auto, using(crate::proofs::DigitValues::value_more))]
pub fn binary(bits: &[u8]) -> u32
    requires few { length bits.now ≤ 32 }
    requires bits { IsTrue (list_all is_bit bits.now) }
    ensures { result ≡ value_after 2 0 bits.now }
{
    let mut value = 0;
    for i in 0..bits.len() {
        value = with_bit(value, i, bits[i]);
    }
    value
}

/// Whether each bit of the pattern is 1.
pub fn is_ones(bits: Bits) -> bool
    ensures { result ≡ (bits.value == 2 ^ bits.len - 1) }
{
    bits.len <= 32 && bits.value as u64 == (1u64 << bits.len) - 1
}
