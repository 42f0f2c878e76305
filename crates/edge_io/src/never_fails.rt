ghost use Rattle.std.specs.Prelude.{◌≡◌, ℕ, List, [], None, Some, OnErr, OnOk, false};
ghost use Rattle.edge_io.specs.declared.entries.Entry.{Entry};
ghost use Rattle.edge_io.specs.NeverFails.{placed_or_empty};
ghost use Rattle.edge_io.specs.Shelf.{ChangesOne};

use crate::entries::{Entry, set_value, value_in};
use crate::mem_shelf::copy_at;
use crate::shelf::{Failed, Shelf};
use crate::sink::Sink;
use std::alloc::Global;
use std::marker::Model;
use texts::{OutOfMemory, Text};

/// A shelf and a sink whose calls never fail: their count of faults is 0 for ever. A name under which nothing
/// was placed reads as empty.
///
/// What is written or given is dropped, and so isn't told. What is held is told, so that a caller knows which
/// bytes its reads gave, and that no fault kept them from it.
#[derive(Drop)]
pub struct NeverFails {
    alloc: Global,
    placed: Vec<Entry<Text>>,
}

impl Model for NeverFails {
    ghost Value = { List (Entry (List ℕ)) };

    ghost view = { λ s. s.placed.items };
}

impl NeverFails {
    /// A shelf under whose names nothing was placed. It takes no memory.
    pub fn new(alloc: Global) -> NeverFails
        ensures { (name : List ℕ) → placed_or_empty result name ≡ Some [] }
    {
        NeverFails {
            alloc,
            placed: Vec::new(alloc),
        }
    }

    /// Puts bytes under a name, for reads, in place of what was placed there before.
    pub fn place(&mut self, name: &str, bytes: &[u8]) -> Result<(), OutOfMemory>
        ensures ok { OnOk result (ChangesOne (placed_or_empty self.old)
            (placed_or_empty self.new) name.now
            (λ before after. after ≡ Some bytes.now)) }
        ensures err { OnErr result (self.new ≡ self.old) }
    {
        let text = Text::from_bytes(self.alloc, bytes)?;
        set_value(self.alloc, &mut self.placed, name.as_bytes(), text)?;
        Ok(())
    }
}

impl Shelf for NeverFails {
    ghost held = { placed_or_empty };

    ghost written = { λ _ _. None };

    ghost tells = { false };

    ghost faults = { λ _ _ _. 0 };

    fn read_at(&mut self, name: &str, at: u64, into: &mut [u8]) -> Result<usize, Failed> {
        match value_in(&self.placed, name.as_bytes()) {
            Some(text) => Ok(copy_at(text.as_bytes(), at, into)),
            None => Ok(0),
        }
    }

    fn start(&mut self, _name: &str) -> Result<(), Failed> {
        Ok(())
    }

    fn append(&mut self, _name: &str, piece: &[u8]) -> Result<usize, Failed> {
        Ok(piece.len())
    }
}

impl Sink for NeverFails {
    ghost given = { λ _. None };

    ghost faults = { λ _. 0 };

    fn put(&mut self, piece: &[u8]) -> Result<usize, Failed> {
        Ok(piece.len())
    }
}
