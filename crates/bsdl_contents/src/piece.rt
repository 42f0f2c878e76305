ghost use Rattle.std.specs.Prelude.{◌≡◌};
ghost use Rattle.std.specs.Option.{is_some, option_copied};

use bsdl_device::runs::numbers::{binary, decimal};
use bsdl_device::runs::runs::{is_identifier, is_integer, is_pattern, is_pin};
use bsdl_device::{Register, Safe};
use bsdl_lexicon::names::same_name;
use bsdl_lexicon::reserved::is_reserved;
use cell_library::{Bits, BoundaryKind, Function};

/// A word of contents: a run of letters, digits and `_`, or one other byte that is no blank.
#[derive(Clone, Copy, Drop)]
pub enum Piece<'a> {
    Run(&'a [u8]),
    Other(u8),
}

impl<'a> Piece<'a> {
    ghost use Rattle.bsdl_device.specs.Runs.{identifier_in, name_in, pin_in, integer_in, pattern_in, key_in, mark_in};
    ghost use Rattle.bsdl_contents.specs.WordsAhead.{word_of};
    ghost use Rattle.bsdl_contents.specs.Reader.{cell_in, function_in, safe_in, bit_in, register_in, code_in};

    /// The identifier that the word is, reserved or not.
    pub fn identifier(self) -> Option<&'a [u8]>
        ensures { option_copied result ≡ identifier_in (word_of self.entry) }
    {
        match self {
            Piece::Run(run) => { if is_identifier(run) { Some(run) } else { None } }
            Piece::Other(_) => None,
        }
    }

    /// The identifier that the word is, if it isn't reserved.
    pub fn name(self) -> Option<&'a [u8]>
        ensures { option_copied result ≡ name_in (word_of self.entry) }
    {
        match self {
            Piece::Run(run) => {
                if is_identifier(run) && !is_reserved(run) {
                    Some(run)
                } else {
                    None
                }
            }
            Piece::Other(_) => None,
        }
    }

    /// The pin that the word is.
    pub fn pin(self) -> Option<&'a [u8]>
        ensures { option_copied result ≡ pin_in (word_of self.entry) }
    {
        match self {
            Piece::Run(run) => { if is_pin(run) { Some(run) } else { None } }
            Piece::Other(_) => None,
        }
    }

    /// The value of the integer that the word is.
    pub fn integer(self) -> Option<u32>
        ensures { result ≡ integer_in (word_of self.entry) }
    {
        match self {
            Piece::Run(run) => {
                if is_integer(run) {
                    Some(decimal(run))
                } else {
                    None
                }
            }
            Piece::Other(_) => None,
        }
    }

    /// The bits that the word is.
    pub fn bits(self) -> Option<Bits>
        ensures { result ≡ pattern_in (word_of self.entry) }
    {
        match self {
            Piece::Run(run) => {
                if is_pattern(run) {
                    Some(Bits {
                        len: run.len() as u32,
                        value: binary(run),
                    })
                } else {
                    None
                }
            }
            Piece::Other(_) => None,
        }
    }

    /// The value of the 32 bits that the word is.
    pub fn code(self) -> Option<u32>
        ensures { result ≡ code_in (word_of self.entry) }
    {
        match self.bits() {
            Some(bits) => {
                if bits.len == 32 {
                    Some(bits.value)
                } else {
                    None
                }
            }
            None => None,
        }
    }

    /// Whether the word is this one, without regard to case.
    pub fn is_key(self, wanted: &[u8]) -> bool
        ensures { result ≡ is_some (key_in wanted.now (word_of self.entry)) }
    {
        match self {
            Piece::Run(run) => same_name(run, wanted),
            Piece::Other(_) => false,
        }
    }

    /// Whether the word is this symbol.
    pub fn is_mark(self, wanted: u8) -> bool
        ensures { result ≡ is_some (mark_in wanted (word_of self.entry)) }
    {
        match self {
            Piece::Run(_) => false,
            Piece::Other(b) => b == wanted,
        }
    }

    /// The cell's kind that the word is.
    pub fn cell(self) -> Option<BoundaryKind>
        ensures { result ≡ cell_in (word_of self.entry) }
    {
        if self.is_key(b"BC_1") {
            Some(BoundaryKind::Bc1)
        } else if self.is_key(b"BC_2") {
            Some(BoundaryKind::Bc2)
        } else if self.is_key(b"BC_4") {
            Some(BoundaryKind::Bc4)
        } else if self.is_key(b"BC_7") {
            Some(BoundaryKind::Bc7)
        } else {
            None
        }
    }

    /// The cell's function that the word is.
    pub fn function(self) -> Option<Function>
        ensures { result ≡ function_in (word_of self.entry) }
    {
        if self.is_key(b"input") {
            Some(Function::Input)
        } else if self.is_key(b"output2") {
            Some(Function::Output2)
        } else if self.is_key(b"output3") {
            Some(Function::Output3)
        } else if self.is_key(b"control") {
            Some(Function::Control)
        } else if self.is_key(b"bidir") {
            Some(Function::Bidir)
        } else if self.is_key(b"clock") {
            Some(Function::Clock)
        } else {
            None
        }
    }

    /// The safe value that the word is.
    pub fn safe(self) -> Option<Safe>
        ensures { result ≡ safe_in (word_of self.entry) }
    {
        if self.is_key(b"0") {
            Some(Safe::Zero)
        } else if self.is_key(b"1") {
            Some(Safe::One)
        } else if self.is_key(b"X") {
            Some(Safe::Any)
        } else {
            None
        }
    }

    /// The one digit, 0 or 1, that the word is.
    pub fn bit(self) -> Option<bool>
        ensures { result ≡ bit_in (word_of self.entry) }
    {
        if self.is_key(b"0") {
            Some(false)
        } else if self.is_key(b"1") {
            Some(true)
        } else {
            None
        }
    }

    /// The register that the word is.
    pub fn register(self) -> Option<Register>
        ensures { result ≡ register_in (word_of self.entry) }
    {
        if self.is_key(b"BOUNDARY") {
            Some(Register::Boundary)
        } else if self.is_key(b"BYPASS") {
            Some(Register::Bypass)
        } else if self.is_key(b"DEVICE_ID") {
            Some(Register::DeviceId)
        } else {
            None
        }
    }
}
