ghost use Rattle.std.specs.Prelude.{◌≡◌, ℕ, List, [], ◌∷◌, ◌++◌, map, string_bytes, OnErr, OnOk};

use std::alloc::Global;
use std::marker::Model;
use texts::OutOfMemory;

/// The words of a command, without the program's own name.
#[derive(Drop)]
pub struct WordList {
    alloc: Global,
    items: Vec<String>,
}

impl Model for WordList {
    ghost Value = { List (List ℕ) };

    ghost view = { λ w. map string_bytes w.items.items };
}

impl WordList {
    /// No words; it takes no memory.
    pub fn new(alloc: Global) -> WordList
        ensures { result ≡ [] }
    {
        WordList {
            alloc,
            items: Vec::new(alloc),
        }
    }

    /// Adds a word at the end.
    pub fn push(&mut self, word: &str) -> Result<(), OutOfMemory>
        ensures ok { OnOk result (self.new ≡ self.old ++ word.now ∷ []) }
        ensures err { OnErr result (self.new ≡ self.old) }
    {
        let item = String::from_str(self.alloc, word)?;
        self.items.push(item)?;
        Ok(())
    }

    /// The words in order.
    pub fn as_slice(&self) -> &[String]
        ensures { map string_bytes result.now ≡ self.now }
    {
        self.items.as_slice()
    }
}
