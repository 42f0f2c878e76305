// A table of names, each once, under numbers in the order of first use.
// Contracts cite specs/NameTableNames.antt: the table is its list of names, in bytes.
// Own: no chapter of a standard speaks of it; that a name has one meaning in a module is IEEE Std 1364-2001's.
//
// - A new table is empty, and `reserve` changes no name.
// - `enter` puts a new name at the end and leaves a known one where it is; the number that it answers is that of
//   the name.
// - After a refusal the table is as before.
// - `find` and `find_near` answer the number of a name exactly where it is there; `text` answers the bytes of a number.
// - `len` and `is_empty` are those of the list, and no name stands twice.
// By the contract of its calls.

ghost use Rattle.std.specs.Prelude.{◌≡◌, ◌↔◌, ◌<◌, [], IsTrue, length, slice_get, Some, None, IfOk, IfSome, OnOk, OnErr};
ghost use Rattle.link_arena.specs.NameTableNames.{IsOnce, number_of, with_name};

mod key;

use crate::name_table::key::Key;
use indexmap::IndexSet;
use std::alloc::Global;
use std::marker::Model;
use texts::OutOfMemory;

/// Names under the numbers 0, 1, 2 and so on.
#[derive(Drop)]
pub struct NameTable {
    names: IndexSet<Key>,
    alloc: Global,
}

impl Model for NameTable {
    ghost use Rattle.std.specs.Prelude.{◌≤◌, ◌^◌, ℕ, List, length};

    ghost Value = { List (List ℕ) };

    ghost view = { λ t. t.names.keys };

    ghost invariant = { λ t. length t.names.keys ≤ 2 ^ 32 };
}

impl NameTable {
    /// An empty table, which takes no memory.
    pub fn new(alloc: Global) -> NameTable
        ensures { result ≡ [] }
    {
        NameTable {
            names: IndexSet::new(alloc),
            alloc,
        }
    }

    /// Makes room for so many more names, so that the table is not moved while they are entered.
    pub fn reserve(&mut self, more: usize) -> Result<(), OutOfMemory>
        ensures { self.new ≡ self.old }
    {
        self.names.reserve(more)?;
        Ok(())
    }

    /// The number of the name, which is entered at the end unless it is there. Without memory, and where 2^32 names
    /// are there already, the table stays as it was.
    pub fn enter(&mut self, name: &[u8]) -> Result<u32, OutOfMemory>
        ensures names { OnOk result (self.new ≡ with_name name.now self.old) }
        ensures number { IfOk result (λ number. number_of name.now self.new ≡ Some number) }
        ensures stands { IfOk result (λ number. slice_get self.new number ≡ Some name.now) }
        ensures err { OnErr result (self.new ≡ self.old) }
    {
        if self.names.len() > u32::MAX as usize {
            return match self.find(name) {
                Some(number) => Ok(number),
                None => Err(OutOfMemory),
            };
        }
        let key = Key::new(self.alloc, name)?;
        let (number, _) = self.names.insert_full(key)?;
        Ok(number as u32)
    }

    /// The number of a name, if it is there.
    pub fn find(&self, name: &[u8]) -> Option<u32>
        ensures number { result ≡ number_of name.now self.now }
        ensures stands { IfSome result (λ number. slice_get self.now number ≡ Some name.now) }
    {
        let number = self.names.get_index_of(name)?;
        Some(number as u32)
    }

    /// The number of a name, if it is there; it is looked for first at the hint and at the number after it.
    pub fn find_near(&self, name: &[u8], hint: u32) -> Option<u32>
        ensures number { result ≡ number_of name.now self.now }
        ensures stands { IfSome result (λ number. slice_get self.now number ≡ Some name.now) }
    {
        if self.has_at(name, hint) {
            return Some(hint);
        }
        let next = hint.saturating_add(1);
        if self.has_at(name, next) {
            return Some(next);
        }
        self.find(name)
    }

    // Whether the name has this number.
    fn has_at(&self, name: &[u8], number: u32) -> bool
        ensures { IsTrue result ↔ (number_of name.now self.now ≡ Some number) }
    {
        if u64::from(number) >= self.len() {
            return false;
        }
        self.text(number) == name
    }

    /// The name with this number.
    pub fn text(&self, number: u32) -> &[u8]
        requires { number < length self.now }
        ensures { slice_get self.now number ≡ Some result.now }
    {
        match self.names.get_index(number as usize) {
            Some(name) => name.as_bytes(),
            None => unreachable!(),
        }
    }

    /// How many names there are. Each is there once.
    pub fn len(&self) -> u64
        ensures len { result ≡ length self.now }
        ensures once { IsOnce self.now }
    {
        self.names.len() as u64
    }

    /// Whether there is none.
    pub fn is_empty(&self) -> bool
        ensures { IsTrue result ↔ (self.now ≡ []) }
    {
        self.names.is_empty()
    }
}
