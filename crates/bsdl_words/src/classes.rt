ghost use Rattle.std.specs.Prelude.{◌≡◌};
ghost use Rattle.bsdl_lexicon.specs.Bytes as bytes;
ghost use Rattle.bsdl_words.specs.Machine as machine;

use bsdl_lexicon::BsdlSymbol;
use word_cutter::ByteClass;

// Tests of one byte.

/// A space, a tab, a line feed, a carriage return or a form feed.
pub fn is_blank(b: u8) -> bool
    ensures { result ≡ bytes.is_blank b }
{
    b == b' ' || b == b'\t' || b == b'\n' || b == b'\r' || b == 12
}

/// A letter, in either case.
pub fn is_letter(b: u8) -> bool
    ensures { result ≡ bytes.is_letter b }
{
    (b'A' <= b && b <= b'Z') || (b'a' <= b && b <= b'z')
}

/// A digit.
pub fn is_digit(b: u8) -> bool
    ensures { result ≡ bytes.is_digit b }
{
    b'0' <= b && b <= b'9'
}

/// A letter or a digit.
pub fn is_letter_or_digit(b: u8) -> bool
    ensures { result ≡ bytes.is_letter_or_digit b }
{
    is_letter(b) || is_digit(b)
}

/// A byte of an identifier.
pub fn is_name_byte(b: u8) -> bool
    ensures { result ≡ bytes.is_name_byte b }
{
    is_letter_or_digit(b) || b == b'_'
}

/// What begins an exponent.
pub fn is_exponent_mark(b: u8) -> bool
    ensures { result ≡ bytes.is_exponent_mark b }
{
    b == b'e' || b == b'E'
}

/// The sign of an exponent.
pub fn is_sign(b: u8) -> bool
    ensures { result ≡ bytes.is_sign b }
{
    b == b'+' || b == b'-'
}

/// A byte of a string: one that prints or a space, and no quote.
pub fn is_quotable(b: u8) -> bool
    ensures { result ≡ bytes.is_quotable b }
{
    32 <= b && b <= 126 && b != b'"'
}

/// The symbol of a byte, other than `:`.
pub fn symbol_with(b: u8) -> Option<BsdlSymbol>
    ensures { result ≡ machine.symbol_with b }
{
    match b {
        b'(' => Some(BsdlSymbol::LeftParenthesis),
        b')' => Some(BsdlSymbol::RightParenthesis),
        b';' => Some(BsdlSymbol::Semicolon),
        b',' => Some(BsdlSymbol::Comma),
        b'&' => Some(BsdlSymbol::Ampersand),
        b'.' => Some(BsdlSymbol::Dot),
        _ => None,
    }
}

/// Blanks.
pub struct BlankBytes;

impl ByteClass for BlankBytes {
    ghost holds = { bytes.is_blank };

    fn holds(byte: u8) -> bool {
        is_blank(byte)
    }
}

/// Letters and digits.
pub struct LetterBytes;

impl ByteClass for LetterBytes {
    ghost holds = { bytes.is_letter_or_digit };

    fn holds(byte: u8) -> bool {
        is_letter_or_digit(byte)
    }
}

/// Bytes of a string.
pub struct QuotableBytes;

impl ByteClass for QuotableBytes {
    ghost holds = { bytes.is_quotable };

    fn holds(byte: u8) -> bool {
        is_quotable(byte)
    }
}
