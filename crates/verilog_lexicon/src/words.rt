ghost use Rattle.std.specs.Prelude.{◌≡◌, ℕ, ◌+◌, ◌^◌, ◌<◌, ◌≤◌, List, [], ◌∷◌, ◌++◌, length, take, drop, slice_get, IfOk, OnErr, OnOk};
ghost use Rattle.std.specs.Option.{option_copied};
ghost use Rattle.verilog_lexicon.specs.Keywords.{name_word};
ghost use Rattle.verilog_lexicon.specs.Words.{WordText, with_word, spanned, place_in, plain, front, name_in, reserved_in, number_in, const_in, symbol_of};
ghost use Rattle.verilog_lexicon.specs.Entries.{word_of, len_of, list_of, ends_at, AreKept};
ghost use Rattle.verilog_lexicon.specs.declared.words.Entry.{Entry};
ghost use Rattle.verilog_lexicon.specs.declared.word.Word.{Word};

use crate::keywords::reserved_of;
use crate::reserved::Reserved;
use crate::symbol::Symbol;
use std::alloc::Global;
use std::marker::Model;
use std::mem::size_of;
use texts::OutOfMemory;

// What a word is, and its length in the text where its kind doesn't say it. Of a name stand the offset and the count of
// its bytes among those of all names; an escaped one takes two bytes more in the text.
#[derive(Clone, Copy, Drop)]
enum Mark {
    Name { count: u16, from: u32 },
    EscapedName { count: u16, from: u32 },
    Reserved { len: u16, word: Reserved },
    Number { len: u16, value: u32 },
    Const(bool),
    Symbol(Symbol),
}

#[derive(Clone, Copy, Drop)]
struct Entry {
    at: u32,
    mark: Mark,
}

// An entry takes 12 bytes.
const _: () = prove!(size_of::<Entry>() == 12);

/// The words of a text in order, with their places, and the text's length. It takes 12 bytes a word beside the bytes of
/// the names. Words that begin past the first 4 GiB of a text, that have more than 65,535 bytes, or whose names take
/// more than 4 GiB, aren't kept: they are answered with `OutOfMemory`.
#[derive(Drop)]
pub struct Words {
    names: Vec<u8>,
    entries: Vec<Entry>,
    end: u64,
}

impl Model for Words {
    ghost Value = { WordText };

    ghost view = { λ w. record { list = list_of w.names.items w.entries.items; end = w.end } };

    ghost invariant = { λ w. AreKept w.names.items w.entries.items };
}

impl Mark {
    fn reserved(self) -> Option<Reserved>
        ensures { (names : List ℕ) → result ≡ reserved_in (word_of names self) }
    {
        match self {
            Mark::Reserved { word, .. } => Some(word),
            Mark::Name { .. }
            | Mark::EscapedName { .. }
            | Mark::Number { .. }
            | Mark::Const(_)
            | Mark::Symbol(_) => None,
        }
    }

    fn number(self) -> Option<u32>
        ensures { (names : List ℕ) → result ≡ number_in (word_of names self) }
    {
        match self {
            Mark::Number { value, .. } => Some(value),
            Mark::Name { .. }
            | Mark::EscapedName { .. }
            | Mark::Reserved { .. }
            | Mark::Const(_)
            | Mark::Symbol(_) => None,
        }
    }

    fn constant(self) -> Option<bool>
        ensures { (names : List ℕ) → result ≡ const_in (word_of names self) }
    {
        match self {
            Mark::Const(value) => Some(value),
            Mark::Name { .. }
            | Mark::EscapedName { .. }
            | Mark::Reserved { .. }
            | Mark::Number { .. }
            | Mark::Symbol(_) => None,
        }
    }

    fn symbol(self) -> Option<Symbol>
        ensures { (names : List ℕ) → result ≡ symbol_of (word_of names self) }
    {
        match self {
            Mark::Symbol(symbol) => Some(symbol),
            Mark::Name { .. }
            | Mark::EscapedName { .. }
            | Mark::Reserved { .. }
            | Mark::Number { .. }
            | Mark::Const(_) => None,
        }
    }
}

fn entry_at(entries: &[Entry], number: usize) -> Option<Entry>
    ensures { result ≡ slice_get entries.now number }
{
    entries.get(number).copied()
}

// A length, where it is kept.
fn kept_len(len: usize) -> Result<u16, OutOfMemory>
    ensures { IfOk result (λ kept. kept ≡ len) }
{
    let Ok(kept) = u16::try_from(len) else {
        return Err(OutOfMemory);
    };
    Ok(kept)
}

fn part_of(names: &[u8], from: u32, count: u16) -> &[u8]
    requires { from + count ≤ length names.now }
    ensures { result.now ≡ take count (drop from names.now) }
{
    let rest = &names[from as usize..];
    &rest[..count as usize]
}

// The bytes of the name that a mark says.
fn name_of(names: &[u8], mark: Mark) -> Option<&[u8]>
    requires { ends_at mark ≤ length names.now }
    ensures { option_copied result ≡ name_in (word_of names.now mark) }
{
    match mark {
        Mark::Name { from, count } | Mark::EscapedName { from, count } => {
            Some(part_of(names, from, count))
        }
        Mark::Reserved { .. } | Mark::Number { .. } | Mark::Const(_) | Mark::Symbol(_) => None,
    }
}

// Adds an entry.
#[tactic(auto, using(crate::proofs::Entries::kept_push, crate::proofs::Entries::list_push))]
fn push_entry(entries: &mut Vec<Entry>, mark: Mark, at: u64) -> Result<(), OutOfMemory>
    ensures kept { (names : List ℕ) → ends_at mark ≤ length names
        → AreKept names entries.old.items → AreKept names entries.new.items }
    ensures ok { OnOk result ((names : List ℕ) → list_of names entries.new.items
        ≡ list_of names entries.old.items ++ spanned (word_of names mark) at (len_of mark) ∷ []) }
    ensures err { OnErr result (entries.new.items ≡ entries.old.items) }
{
    let Ok(at) = u32::try_from(at) else {
        return Err(OutOfMemory);
    };
    entries.push(Entry { at, mark })?;
    Ok(())
}

// Adds a name's bytes, and answers where they begin.
fn push_bytes(names: &mut Vec<u8>, name: &[u8]) -> Result<u32, OutOfMemory>
    ensures there { IfOk result (λ from. take (length name.now) (drop from names.new.items) ≡ name.now) }
    ensures room { IfOk result (λ from. from + length name.now ≤ length names.new.items) }
    ensures kept { (entries : List Entry) → AreKept names.old.items entries
        → AreKept names.new.items entries }
    ensures same { (entries : List Entry) → AreKept names.old.items entries
        → list_of names.new.items entries ≡ list_of names.old.items entries }
{
    let Ok(from) = u32::try_from(names.len()) else {
        return Err(OutOfMemory);
    };
    names.extend_from_slice(name)?;
    Ok(from)
}

impl Words {
    /// No words of an empty text; it takes no memory.
    pub fn new(alloc: Global) -> Words
        ensures { result ≡ record { list = []; end = 0 } }
    {
        Words {
            names: Vec::new(alloc),
            entries: Vec::new(alloc),
            end: 0,
        }
    }

    /// Makes room for so many words more, where memory is given. Pages of the room that are never written take none.
    pub fn make_room(&mut self, count: usize)
        ensures { self.new ≡ self.old }
    {
        let _ = self.entries.reserve(count);
    }

    /// Adds what a simple name's bytes are: a reserved word, or a name.
    #[tactic(auto, unfolding(crate::specs::Keywords::name_word))]
    pub fn push_name(&mut self, name: &[u8], at: u64) -> Result<(), OutOfMemory>
        requires { length name.now < 2 ^ 32 }
        ensures ok { OnOk result (self.new
            ≡ with_word self.old (spanned (name_word name.now) at (length name.now))) }
        ensures err { OnErr result (self.new ≡ self.old) }
    {
        let count = kept_len(name.len())?;
        match reserved_of(name) {
            Some(word) => push_entry(&mut self.entries, Mark::Reserved { len: count, word }, at),
            None => {
                let from = push_bytes(&mut self.names, name)?;
                push_entry(&mut self.entries, Mark::Name { count, from }, at)
            }
        }
    }

    /// Adds a name that was escaped, which takes two bytes more in the text.
    pub fn push_escaped_name(&mut self, name: &[u8], at: u64) -> Result<(), OutOfMemory>
        requires { length name.now + 2 < 2 ^ 32 }
        ensures ok { OnOk result (self.new
            ≡ with_word self.old (spanned (Word.Name name.now) at (length name.now + 2))) }
        ensures err { OnErr result (self.new ≡ self.old) }
    {
        let count = kept_len(name.len())?;
        let from = push_bytes(&mut self.names, name)?;
        push_entry(&mut self.entries, Mark::EscapedName { count, from }, at)
    }

    /// Adds a number, which takes `len` bytes in the text.
    pub fn push_number(&mut self, value: u32, at: u64, len: u32) -> Result<(), OutOfMemory>
        ensures ok { OnOk result (self.new ≡ with_word self.old (spanned (Word.Number value) at len)) }
        ensures err { OnErr result (self.new ≡ self.old) }
    {
        let len = kept_len(len as usize)?;
        push_entry(&mut self.entries, Mark::Number { len, value }, at)
    }

    /// Adds a constant.
    pub fn push_constant(&mut self, value: bool, at: u64) -> Result<(), OutOfMemory>
        ensures ok { OnOk result (self.new ≡ with_word self.old (spanned (Word.Const value) at 4)) }
        ensures err { OnErr result (self.new ≡ self.old) }
    {
        push_entry(&mut self.entries, Mark::Const(value), at)
    }

    /// Adds a symbol.
    pub fn push_symbol(&mut self, symbol: Symbol, at: u64) -> Result<(), OutOfMemory>
        ensures ok { OnOk result (self.new ≡ with_word self.old (spanned (Word.Symbol symbol) at 1)) }
        ensures err { OnErr result (self.new ≡ self.old) }
    {
        push_entry(&mut self.entries, Mark::Symbol(symbol), at)
    }

    /// Says how long the text is.
    pub fn set_end(&mut self, end: u64)
        ensures { self.new ≡ record { list = self.old.list; end = end } }
    {
        self.end = end;
    }

    /// The count of words.
    pub fn len(&self) -> usize
        ensures { result ≡ length self.now.list }
    {
        self.entries.len()
    }

    /// The text's length.
    pub fn end(&self) -> u64
        ensures { result ≡ self.now.end }
    {
        self.end
    }

    /// The offset of the word of this number; the text's length where there is none, as for the count of words.
    pub fn place_of(&self, number: usize) -> u64
        ensures { result ≡ place_in self.now number }
    {
        match entry_at(self.entries.as_slice(), number) {
            Some(entry) => u64::from(entry.at),
            None => self.end,
        }
    }

    /// The reserved word that the word of this number is.
    pub fn reserved_at(&self, number: usize) -> Option<Reserved>
        ensures { result ≡ front reserved_in (drop number (plain self.now.list)) }
    {
        match entry_at(self.entries.as_slice(), number) {
            Some(entry) => entry.mark.reserved(),
            None => None,
        }
    }

    /// The value of the number that the word of this number is.
    pub fn number_at(&self, number: usize) -> Option<u32>
        ensures { result ≡ front number_in (drop number (plain self.now.list)) }
    {
        match entry_at(self.entries.as_slice(), number) {
            Some(entry) => entry.mark.number(),
            None => None,
        }
    }

    /// The value of the constant that the word of this number is.
    pub fn constant_at(&self, number: usize) -> Option<bool>
        ensures { result ≡ front const_in (drop number (plain self.now.list)) }
    {
        match entry_at(self.entries.as_slice(), number) {
            Some(entry) => entry.mark.constant(),
            None => None,
        }
    }

    /// The symbol that the word of this number is.
    pub fn symbol_at(&self, number: usize) -> Option<Symbol>
        ensures { result ≡ front symbol_of (drop number (plain self.now.list)) }
    {
        match entry_at(self.entries.as_slice(), number) {
            Some(entry) => entry.mark.symbol(),
            None => None,
        }
    }

    /// The name that the word of this number is.
    pub fn name_at(&self, number: usize) -> Option<&[u8]>
        ensures { option_copied result ≡ front name_in (drop number (plain self.now.list)) }
    {
        match entry_at(self.entries.as_slice(), number) {
            Some(entry) => name_of(self.names.as_slice(), entry.mark),
            None => None,
        }
    }
}
