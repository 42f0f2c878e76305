ghost use Rattle.std.specs.Prelude.{◌≡◌, ◌==◌, length, not};
ghost use Rattle.verilog_lexicon.specs.Bytes as bytes;
ghost use Rattle.verilog_words.specs.Machine as machine;

use crate::mode::Directive;
use verilog_lexicon::Symbol;
use verilog_lexicon::keywords::is_name_byte;
use word_cutter::ByteClass;

// Tests of one byte.

/// A space, a tab, a line feed, a carriage return or a form feed.
pub fn is_blank(b: u8) -> bool
    ensures { result ≡ bytes.is_blank b }
{
    b == b' ' || b == b'\t' || b == b'\n' || b == b'\r' || b == 12
}

/// A digit.
pub fn is_digit(b: u8) -> bool
    ensures { result ≡ bytes.is_digit b }
{
    b'0' <= b && b <= b'9'
}

/// What can't stand right behind a number or a constant.
pub fn clings(b: u8) -> bool
    ensures { result ≡ bytes.clings b }
{
    is_name_byte(b) || b == b'\''
}

/// A byte of an escaped name: one that prints, and no blank.
pub fn is_escaped_byte(b: u8) -> bool
    ensures { result ≡ bytes.is_escaped_byte b }
{
    33 <= b && b <= 126
}

/// The base of a constant.
pub fn is_base(b: u8) -> bool
    ensures { result ≡ bytes.is_base b }
{
    b == b'b'
        || b == b'B'
        || b == b'o'
        || b == b'O'
        || b == b'd'
        || b == b'D'
        || b == b'h'
        || b == b'H'
}

/// The symbol of a byte, other than `(`.
pub fn symbol_with(b: u8) -> Option<Symbol>
    ensures { result ≡ machine.symbol_with b }
{
    match b {
        b')' => Some(Symbol::RightParenthesis),
        b'[' => Some(Symbol::LeftBracket),
        b']' => Some(Symbol::RightBracket),
        b':' => Some(Symbol::Colon),
        b',' => Some(Symbol::Comma),
        b';' => Some(Symbol::Semicolon),
        b'.' => Some(Symbol::Dot),
        b'=' => Some(Symbol::Equals),
        _ => None,
    }
}

/// The directive whose name begins with this byte.
pub fn directive_with(b: u8) -> Option<Directive>
    ensures { result ≡ machine.directive_with b }
{
    match b {
        b't' => Some(Directive::Timescale),
        b'd' => Some(Directive::DefaultNettype),
        b'c' => Some(Directive::Celldefine),
        b'e' => Some(Directive::Endcelldefine),
        _ => None,
    }
}

/// Whether the byte goes on in the directive's name, of which as many bytes came as are pending.
pub fn goes_on(directive: Directive, pending: &[u8], b: u8) -> bool
    ensures { result ≡ machine.goes_on directive pending.now b }
{
    match directive.name().get(pending.len()) {
        Some(wanted) => *wanted == b,
        None => false,
    }
}

/// Whether the directive's name is whole.
pub fn is_whole(directive: Directive, pending: &[u8]) -> bool
    ensures { result ≡ machine.is_whole directive pending.now }
{
    directive.name().len() <= pending.len()
}

/// Bytes of a name.
pub struct NameBytes;

/// Bytes of an escaped name.
pub struct EscapedBytes;

/// Blanks.
pub struct BlankBytes;

/// Bytes that are no star.
pub struct StarlessBytes;

impl ByteClass for NameBytes {
    ghost holds = { bytes.is_name_byte };

    fn holds(byte: u8) -> bool {
        is_name_byte(byte)
    }
}

impl ByteClass for EscapedBytes {
    ghost holds = { bytes.is_escaped_byte };

    fn holds(byte: u8) -> bool {
        is_escaped_byte(byte)
    }
}

impl ByteClass for BlankBytes {
    ghost holds = { bytes.is_blank };

    fn holds(byte: u8) -> bool {
        is_blank(byte)
    }
}

impl ByteClass for StarlessBytes {
    ghost holds = { λ b. not (b == 42) };

    fn holds(byte: u8) -> bool {
        byte != b'*'
    }
}
