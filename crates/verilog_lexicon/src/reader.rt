ghost use Rattle.std.specs.Prelude.{◌≡◌, ◌↔◌, ◌<◌, ◌≤◌, List, drop, length, IsTrue};
ghost use Rattle.std.specs.Option.{is_some, option_copied};
ghost use Rattle.verilog_lexicon.specs.Words.{plain, front, rest, rest_if, name_in, reserved_in, number_in, const_in, symbol_in};
ghost use Rattle.verilog_lexicon.specs.declared.word.Word.{Word};

use crate::reserved::Reserved;
use crate::symbol::Symbol;
use crate::words::Words;
use std::marker::Model;

/// Reads a list of words from its front. Contracts see the words that are left.
#[derive(Drop)]
pub struct WordReader<'a> {
    words: &'a Words,
    next: usize,
    end: usize,
}

impl<'a> Model for WordReader<'a> {
    ghost Value = { List Word };

    ghost view = { λ r. drop r.next (plain r.words.now.list) };

    ghost invariant = { λ r. (r.next ≤ r.end) × (r.end ≡ length (plain r.words.now.list)) };
}

impl<'a> WordReader<'a> {
    /// A reader that stands before the first word.
    #[tactic(auto, using(crate::proofs::ReadWords::length_plain))]
    pub fn new(words: &'a Words) -> WordReader<'a>
        ensures { result ≡ plain words.now.list }
    {
        WordReader {
            words,
            next: 0,
            end: words.len(),
        }
    }

    /// How many words are left.
    pub fn len(&self) -> usize
        ensures { result ≡ length self.now }
    {
        self.end - self.next
    }

    /// Whether no word is left.
    pub fn is_empty(&self) -> bool
        ensures { IsTrue result ↔ (length self.now ≡ 0) }
    {
        self.len() == 0
    }

    /// The reserved word that the next word is.
    pub fn peek_reserved(&self) -> Option<Reserved>
        ensures { result ≡ front reserved_in self.now }
    {
        self.words.reserved_at(self.next)
    }

    /// Whether the next word is this symbol.
    pub fn peek_symbol(&self, wanted: Symbol) -> bool
        ensures { result ≡ is_some (front (symbol_in wanted) self.now) }
    {
        match self.words.symbol_at(self.next) {
            Some(symbol) => symbol.byte() == wanted.byte(),
            None => false,
        }
    }

    /// The name that the next word is.
    pub fn peek_name(&self) -> Option<&'a [u8]>
        ensures { option_copied result ≡ front name_in self.now }
    {
        self.words.name_at(self.next)
    }

    fn peek_number(&self) -> Option<u32>
        ensures { result ≡ front number_in self.now }
    {
        self.words.number_at(self.next)
    }

    fn peek_constant(&self) -> Option<bool>
        ensures { result ≡ front const_in self.now }
    {
        self.words.constant_at(self.next)
    }

    /// Takes the next word.
    pub fn advance(&mut self)
        requires { 0 < length self.old }
        ensures { self.new ≡ rest self.old }
    {
        self.next += 1;
    }

    /// Takes the next word where it is this symbol, and says whether it was.
    pub fn take_symbol(&mut self, wanted: Symbol) -> bool
        ensures taken { result ≡ is_some (front (symbol_in wanted) self.old) }
        ensures rest { self.new ≡ rest_if (front (symbol_in wanted) self.old) self.old }
    {
        let found = self.peek_symbol(wanted);
        if found {
            self.advance();
        }
        found
    }

    /// Takes the next word where it is a name.
    pub fn take_name(&mut self) -> Option<&'a [u8]>
        ensures name { option_copied result ≡ front name_in self.old }
        ensures rest { self.new ≡ rest_if (front name_in self.old) self.old }
    {
        let name = self.peek_name();
        if name.is_some() {
            self.advance();
        }
        name
    }

    /// Takes the next word where it is a number.
    pub fn take_number(&mut self) -> Option<u32>
        ensures number { result ≡ front number_in self.old }
        ensures rest { self.new ≡ rest_if (front number_in self.old) self.old }
    {
        let number = self.peek_number();
        if number.is_some() {
            self.advance();
        }
        number
    }

    /// Takes the next word where it is a constant.
    pub fn take_constant(&mut self) -> Option<bool>
        ensures constant { result ≡ front const_in self.old }
        ensures rest { self.new ≡ rest_if (front const_in self.old) self.old }
    {
        let constant = self.peek_constant();
        if constant.is_some() {
            self.advance();
        }
        constant
    }
}
