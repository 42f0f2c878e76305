ghost use Rattle.std.specs.Prelude.{◌≡◌, ◌+◌, ◌≤◌, length, IfOk, IsTrue};
ghost use Rattle.std.specs.List.{list_all};
ghost use Rattle.bsdl_lexicon.specs.Bytes.{is_digit};
ghost use Rattle.bsdl_lexicon.specs.Pieces.{value_from};

use texts::OutOfMemory;
use word_cutter::with_digit;

/// The value of decimal digits.
pub fn value_of(digits: &[u8]) -> u32
    requires few { length digits.now ≤ 9 }
    requires digits { IsTrue (list_all is_digit digits.now) }
    ensures { result ≡ value_from 0 digits.now }
{
    let mut value = 0;
    for i in 0..digits.len() {
        value = with_digit(value, i, digits[i]);
    }
    value
}

/// The length of a word of so many bytes and these, where it is below 4 GiB.
pub fn word_len(count: usize, more: u32) -> Result<u32, OutOfMemory>
    ensures { IfOk result (λ len. len ≡ count + more) }
{
    let Ok(len) = u32::try_from(count) else {
        return Err(OutOfMemory);
    };
    if len > u32::MAX - more {
        return Err(OutOfMemory);
    }
    Ok(len + more)
}
