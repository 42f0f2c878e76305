// Tests of bytes and of runs.
ghost use Rattle.std.specs.Prelude.{◌≡◌, ◌≤◌, length, IsTrue};
ghost use Rattle.std.specs.List.{list_all};
ghost use Rattle.bsdl_device.specs.Digits.{is_bit};
ghost use Rattle.bsdl_lexicon.specs.Bytes as bytes;
ghost use Rattle.bsdl_device.specs.Runs as runs;

/// Whether the byte is a letter.
pub fn is_letter(b: u8) -> bool
    ensures { result ≡ bytes.is_letter b }
{
    (b'A' <= b && b <= b'Z') || (b'a' <= b && b <= b'z')
}

fn is_digit(b: u8) -> bool
    ensures { result ≡ bytes.is_digit b }
{
    b'0' <= b && b <= b'9'
}

/// Whether the byte goes on in a run.
pub fn is_name_byte(b: u8) -> bool
    ensures { result ≡ bytes.is_name_byte b }
{
    is_letter(b) || is_digit(b) || b == b'_'
}

/// Whether each byte is a digit.
pub fn are_digits(run: &[u8]) -> bool
    ensures { result ≡ list_all bytes.is_digit run.now }
{
    run.iter().all(|b| is_digit(*b))
}

fn are_name_bytes(run: &[u8]) -> bool
    ensures { result ≡ list_all bytes.is_name_byte run.now }
{
    run.iter().all(|b| is_name_byte(*b))
}

fn are_bits(run: &[u8]) -> bool
    ensures { result ≡ list_all is_bit run.now }
{
    run.iter().all(|b| *b == b'0' || *b == b'1')
}

/// Whether the run is an integer, of at most 9 digits.
pub fn is_integer(run: &[u8]) -> bool
    ensures test { result ≡ runs.is_integer run.now }
    ensures few { IsTrue result → length run.now ≤ 9 }
    ensures digits { IsTrue result → IsTrue (list_all bytes.is_digit run.now) }
{
    1 <= run.len() && run.len() <= 9 && are_digits(run)
}

/// Whether the run is a pattern of at most 32 bits.
pub fn is_pattern(run: &[u8]) -> bool
    ensures test { result ≡ runs.is_pattern run.now }
    ensures few { IsTrue result → length run.now ≤ 32 }
    ensures bits { IsTrue result → IsTrue (list_all is_bit run.now) }
{
    1 <= run.len() && run.len() <= 32 && are_bits(run)
}

/// Whether the run is a pin, of at most 32 bytes.
pub fn is_pin(run: &[u8]) -> bool
    ensures { result ≡ runs.is_pin run.now }
{
    1 <= run.len() && run.len() <= 32
}

fn begins_with_letter(run: &[u8]) -> bool
    ensures { result ≡ runs.begins_with_letter run.now }
{
    match run {
        [] => false,
        [first, ..] => is_letter(*first),
    }
}

#[tactic(auto, using(crate::proofs::Underscores::double_last, crate::proofs::Underscores::double_here, crate::proofs::Underscores::single_last, crate::proofs::Underscores::single_here, crate::proofs::Underscores::single_next))]
fn has_single_underscores(run: &[u8]) -> bool
    ensures { result ≡ runs.has_single_underscores run.now }
{
    for i in 0..run.len() {
        if run[i] == b'_' && (i + 1 == run.len() || run[i + 1] == b'_') {
            return false;
        }
    }
    true
}

/// Whether the run is an identifier, reserved or not.
pub fn is_identifier(run: &[u8]) -> bool
    ensures { result ≡ runs.is_identifier run.now }
{
    begins_with_letter(run)
        && are_name_bytes(run)
        && has_single_underscores(run)
        && run.len() <= 255
}
