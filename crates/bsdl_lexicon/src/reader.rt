ghost use Rattle.std.specs.Prelude.{◌≡◌, ◌↔◌, ◌<◌, List, length, IsTrue};
ghost use Rattle.std.specs.Option.{is_some, option_copied};
ghost use Rattle.bsdl_lexicon.specs.Words.{plain, front, rest, rest_if, name_in, key_in, integer_in, real_in, quoted_in, symbol_in, becomes_in};
ghost use Rattle.bsdl_lexicon.specs.declared.token.BsdlToken.{BsdlToken};

use crate::symbol::BsdlSymbol;
use crate::token::BsdlSpanned;
use crate::words::BsdlWords;
use std::marker::Model;

/// Reads a list of words from its front. Contracts see the words that are left.
#[derive(Drop)]
pub struct BsdlReader<'a> {
    left: &'a [BsdlSpanned],
}

impl<'a> Model for BsdlReader<'a> {
    ghost Value = { List BsdlToken };

    ghost view = { λ r. plain r.left.now };
}

impl<'a> BsdlReader<'a> {
    /// A reader that stands before the first word.
    pub fn new(words: &'a BsdlWords) -> BsdlReader<'a>
        ensures { result ≡ plain words.now.list }
    {
        BsdlReader {
            left: words.list.as_slice(),
        }
    }

    /// How many words are left.
    #[tactic(auto, using(crate::proofs::ReadWords::length_plain))]
    pub fn len(&self) -> usize
        ensures { result ≡ length self.now }
    {
        self.left.len()
    }

    /// Whether no word is left.
    pub fn is_empty(&self) -> bool
        ensures { IsTrue result ↔ (length self.now ≡ 0) }
    {
        self.len() == 0
    }

    /// The identifier that the next word is, if it isn't reserved.
    pub fn peek_name(&self) -> Option<&'a [u8]>
        ensures { option_copied result ≡ front name_in self.now }
    {
        match self.left {
            [first, ..] => first.word.name(),
            [] => None,
        }
    }

    /// Whether the next word is this identifier, without regard to case.
    pub fn peek_key(&self, wanted: &[u8]) -> bool
        ensures { result ≡ is_some (front (key_in wanted.now) self.now) }
    {
        match self.left {
            [first, ..] => first.word.is_key(wanted),
            [] => false,
        }
    }

    /// The contents of the string that the next word is.
    pub fn peek_quoted(&self) -> Option<&'a [u8]>
        ensures { option_copied result ≡ front quoted_in self.now }
    {
        match self.left {
            [first, ..] => first.word.quoted(),
            [] => None,
        }
    }

    /// Whether the next word is this symbol.
    pub fn peek_symbol(&self, wanted: BsdlSymbol) -> bool
        ensures { result ≡ is_some (front (symbol_in wanted) self.now) }
    {
        match self.left {
            [first, ..] => first.word.is_symbol(wanted),
            [] => false,
        }
    }

    /// The integer that the next word is.
    pub fn peek_integer(&self) -> Option<u32>
        ensures { result ≡ front integer_in self.now }
    {
        match self.left {
            [first, ..] => first.word.integer(),
            [] => None,
        }
    }

    fn peek_real(&self) -> Option<&'a [u8]>
        ensures { option_copied result ≡ front real_in self.now }
    {
        match self.left {
            [first, ..] => first.word.real(),
            [] => None,
        }
    }

    fn peek_becomes(&self) -> bool
        ensures { result ≡ is_some (front becomes_in self.now) }
    {
        match self.left {
            [first, ..] => first.word.is_becomes(),
            [] => false,
        }
    }

    /// Takes the next word.
    pub fn advance(&mut self)
        requires { 0 < length self.old }
        ensures { self.new ≡ rest self.old }
    {
        self.left = &self.left[1..];
    }

    /// Takes the next word where it is an identifier that isn't reserved.
    pub fn take_name(&mut self) -> Option<&'a [u8]>
        ensures name { option_copied result ≡ front name_in self.old }
        ensures rest { self.new ≡ rest_if (front name_in self.old) self.old }
    {
        let name = self.peek_name();
        if name.is_some() {
            self.advance();
        }
        name
    }

    /// Takes the next word where it is this identifier, without regard to case, and says whether it was.
    pub fn take_key(&mut self, wanted: &[u8]) -> bool
        ensures taken { result ≡ is_some (front (key_in wanted.now) self.old) }
        ensures rest { self.new ≡ rest_if (front (key_in wanted.now) self.old) self.old }
    {
        let found = self.peek_key(wanted);
        if found {
            self.advance();
        }
        found
    }

    /// Takes the next word where it is an integer.
    pub fn take_integer(&mut self) -> Option<u32>
        ensures integer { result ≡ front integer_in self.old }
        ensures rest { self.new ≡ rest_if (front integer_in self.old) self.old }
    {
        let integer = self.peek_integer();
        if integer.is_some() {
            self.advance();
        }
        integer
    }

    /// Takes the next word where it is a real number.
    pub fn take_real(&mut self) -> Option<&'a [u8]>
        ensures real { option_copied result ≡ front real_in self.old }
        ensures rest { self.new ≡ rest_if (front real_in self.old) self.old }
    {
        let real = self.peek_real();
        if real.is_some() {
            self.advance();
        }
        real
    }

    /// Takes the next word where it is a string.
    pub fn take_quoted(&mut self) -> Option<&'a [u8]>
        ensures quoted { option_copied result ≡ front quoted_in self.old }
        ensures rest { self.new ≡ rest_if (front quoted_in self.old) self.old }
    {
        let quoted = self.peek_quoted();
        if quoted.is_some() {
            self.advance();
        }
        quoted
    }

    /// Takes the next word where it is this symbol, and says whether it was.
    pub fn take_symbol(&mut self, wanted: BsdlSymbol) -> bool
        ensures taken { result ≡ is_some (front (symbol_in wanted) self.old) }
        ensures rest { self.new ≡ rest_if (front (symbol_in wanted) self.old) self.old }
    {
        let found = self.peek_symbol(wanted);
        if found {
            self.advance();
        }
        found
    }

    /// Takes the next word where it is `:=`, and says whether it was.
    pub fn take_becomes(&mut self) -> bool
        ensures taken { result ≡ is_some (front becomes_in self.old) }
        ensures rest { self.new ≡ rest_if (front becomes_in self.old) self.old }
    {
        let found = self.peek_becomes();
        if found {
            self.advance();
        }
        found
    }
}
