ghost use Rattle.std.specs.Prelude.{◌≡◌, ◌<◌, ◌≤◌, List, length, IsTrue};
ghost use Rattle.std.specs.Option.{is_some, option_copied};
ghost use Rattle.bsdl_device.specs.Runs.{ContentWord, content_words, identifier_in, name_in, pin_in, integer_in, pattern_in, key_in, mark_in};
ghost use Rattle.bsdl_device.specs.Readers.{front, rest, rest_if, take_at, end_at};
ghost use Rattle.bsdl_contents.specs.WordsAhead.{words_left};
ghost use Rattle.bsdl_contents.specs.Outcomes.{Gives};
ghost use Rattle.bsdl_contents.specs.Reader.{cell_in, function_in, safe_in, bit_in, register_in, code_in};

use crate::cut::first_word;
use crate::fault::PartFault;
use crate::piece::Piece;
use bsdl_device::{Register, Safe};
use cell_library::{Bits, BoundaryKind, Function};
use std::alloc::Global;
use std::marker::Model;
use texts::Text;

/// Reads the words of joined strings from their front. Contracts see the words that are left.
#[derive(Drop)]
pub struct ContentReader<'a> {
    first: Option<Piece<'a>>,
    behind: &'a [u8],
}

impl<'a> Model for ContentReader<'a> {
    ghost Value = { List ContentWord };

    ghost view = { λ r. words_left r.first r.behind.now };
}

impl<'a> ContentReader<'a> {
    /// A reader that stands before the first word.
    pub fn new(bytes: &'a [u8]) -> ContentReader<'a>
        ensures { result ≡ content_words bytes.now }
    {
        let (first, behind) = first_word(bytes);
        ContentReader { first, behind }
    }

    // Takes the next word.
    fn advance(&mut self)
        requires { 0 < length self.old }
        ensures rest { self.new ≡ rest self.old }
        ensures shorter { length self.new < length self.old }
    {
        let (first, behind) = first_word(self.behind);
        self.first = first;
        self.behind = behind;
    }

    /// That no words are left.
    pub fn end(&self) -> Result<(), PartFault>
        ensures { Gives result self.now (end_at self.now) }
    {
        match self.first {
            Some(_) => Err(PartFault::Wrong),
            None => Ok(()),
        }
    }

    /// Takes the next word where it is this symbol, and says whether it was.
    pub fn take_mark(&mut self, wanted: u8) -> bool
        ensures taken { result ≡ is_some (front (mark_in wanted) self.old) }
        ensures rest { self.new ≡ rest_if (front (mark_in wanted) self.old) self.old }
        ensures shorter { IsTrue result → length self.new < length self.old }
        ensures within { length self.new ≤ length self.old }
    {
        let Some(word) = self.first else {
            return false;
        };
        let found = word.is_mark(wanted);
        if found {
            self.advance();
        }
        found
    }

    /// A symbol that has to stand there.
    pub fn mark(&mut self, wanted: u8) -> Result<(), PartFault>
        ensures gives { Gives result self.new (take_at (mark_in wanted) self.old) }
        ensures within { length self.new ≤ length self.old }
    {
        if self.take_mark(wanted) {
            Ok(())
        } else {
            Err(PartFault::Wrong)
        }
    }

    /// A word that has to stand there, without regard to case.
    pub fn key(&mut self, wanted: &[u8]) -> Result<(), PartFault>
        ensures gives { Gives result self.new (take_at (key_in wanted.now) self.old) }
        ensures within { length self.new ≤ length self.old }
    {
        let Some(word) = self.first else {
            return Err(PartFault::Wrong);
        };
        if !word.is_key(wanted) {
            return Err(PartFault::Wrong);
        }
        self.advance();
        Ok(())
    }

    /// An identifier, reserved or not, copied.
    pub fn identifier(&mut self, alloc: Global) -> Result<Text, PartFault>
        ensures gives { Gives result self.new (take_at identifier_in self.old) }
        ensures within { length self.new ≤ length self.old }
    {
        let Some(word) = self.first else {
            return Err(PartFault::Wrong);
        };
        let Some(identifier) = word.identifier() else {
            return Err(PartFault::Wrong);
        };
        self.advance();
        Ok(Text::from_bytes(alloc, identifier)?)
    }

    /// A name, copied.
    pub fn name(&mut self, alloc: Global) -> Result<Text, PartFault>
        ensures gives { Gives result self.new (take_at name_in self.old) }
        ensures within { length self.new ≤ length self.old }
    {
        let Some(word) = self.first else {
            return Err(PartFault::Wrong);
        };
        let Some(name) = word.name() else {
            return Err(PartFault::Wrong);
        };
        self.advance();
        Ok(Text::from_bytes(alloc, name)?)
    }

    /// A pin, copied.
    pub fn pin(&mut self, alloc: Global) -> Result<Text, PartFault>
        ensures gives { Gives result self.new (take_at pin_in self.old) }
        ensures within { length self.new ≤ length self.old }
    {
        let Some(word) = self.first else {
            return Err(PartFault::Wrong);
        };
        let Some(pin) = word.pin() else {
            return Err(PartFault::Wrong);
        };
        self.advance();
        Ok(Text::from_bytes(alloc, pin)?)
    }

    /// The value of an integer.
    pub fn integer(&mut self) -> Result<u32, PartFault>
        ensures gives { Gives result self.new (take_at integer_in self.old) }
        ensures within { length self.new ≤ length self.old }
    {
        let Some(word) = self.first else {
            return Err(PartFault::Wrong);
        };
        let Some(integer) = word.integer() else {
            return Err(PartFault::Wrong);
        };
        self.advance();
        Ok(integer)
    }

    /// A pattern of bits.
    pub fn bits(&mut self) -> Result<Bits, PartFault>
        ensures gives { Gives result self.new (take_at pattern_in self.old) }
        ensures within { length self.new ≤ length self.old }
    {
        let Some(word) = self.first else {
            return Err(PartFault::Wrong);
        };
        let Some(bits) = word.bits() else {
            return Err(PartFault::Wrong);
        };
        self.advance();
        Ok(bits)
    }

    /// A cell's kind.
    pub fn cell(&mut self) -> Result<BoundaryKind, PartFault>
        ensures gives { Gives result self.new (take_at cell_in self.old) }
        ensures within { length self.new ≤ length self.old }
    {
        let Some(word) = self.first else {
            return Err(PartFault::Wrong);
        };
        let Some(cell) = word.cell() else {
            return Err(PartFault::Wrong);
        };
        self.advance();
        Ok(cell)
    }

    /// A cell's function.
    pub fn function(&mut self) -> Result<Function, PartFault>
        ensures gives { Gives result self.new (take_at function_in self.old) }
        ensures within { length self.new ≤ length self.old }
    {
        let Some(word) = self.first else {
            return Err(PartFault::Wrong);
        };
        let Some(function) = word.function() else {
            return Err(PartFault::Wrong);
        };
        self.advance();
        Ok(function)
    }

    /// A safe value.
    pub fn safe(&mut self) -> Result<Safe, PartFault>
        ensures gives { Gives result self.new (take_at safe_in self.old) }
        ensures within { length self.new ≤ length self.old }
    {
        let Some(word) = self.first else {
            return Err(PartFault::Wrong);
        };
        let Some(safe) = word.safe() else {
            return Err(PartFault::Wrong);
        };
        self.advance();
        Ok(safe)
    }

    /// One digit, 0 or 1.
    pub fn bit(&mut self) -> Result<bool, PartFault>
        ensures gives { Gives result self.new (take_at bit_in self.old) }
        ensures within { length self.new ≤ length self.old }
    {
        let Some(word) = self.first else {
            return Err(PartFault::Wrong);
        };
        let Some(bit) = word.bit() else {
            return Err(PartFault::Wrong);
        };
        self.advance();
        Ok(bit)
    }

    /// A register of the profile.
    pub fn register(&mut self) -> Result<Register, PartFault>
        ensures gives { Gives result self.new (take_at register_in self.old) }
        ensures within { length self.new ≤ length self.old }
    {
        let Some(word) = self.first else {
            return Err(PartFault::Wrong);
        };
        let Some(register) = word.register() else {
            return Err(PartFault::Wrong);
        };
        self.advance();
        Ok(register)
    }

    /// The value of 32 bits.
    pub fn code(&mut self) -> Result<u32, PartFault>
        ensures gives { Gives result self.new (take_at code_in self.old) }
        ensures within { length self.new ≤ length self.old }
    {
        let Some(word) = self.first else {
            return Err(PartFault::Wrong);
        };
        let Some(code) = word.code() else {
            return Err(PartFault::Wrong);
        };
        self.advance();
        Ok(code)
    }
}
