ghost use Rattle.std.specs.Prelude.{◌≡◌, ◌↔◌, ◌+◌, ◌-◌, ◌<◌, ◌≤◌, ◌∷◌, ◌++◌, ℕ, List, [], None, Some, IfOk, IsErr, OnErr, OnOk, is_err, length, max, min, take, true, unwrap_or};
ghost use Rattle.std.specs.Option.{option_copied};
ghost use Rattle.edge_io.specs.Calls.{call_made};
ghost use Rattle.edge_io.specs.MemShelf.{FailsToAppend, FailsToRead, FailsToStart, ShelfState, placed_bytes, room_of, spare_room, written_bytes};
ghost use Rattle.edge_io.specs.Shelf.{Access, ChangesOne, NoneFell, Reads, RoseAt, SameTold, StartedIfTold, WhereTold, appended, told_if};

use crate::calls::Calls;
use crate::entries::{Entry, set_value, value_in};
use crate::outputs::{Output, add_to_output, make_room_for, start_output};
use crate::shelf::{Failed, Shelf};
use std::alloc::Global;
use std::marker::Model;
use texts::{OutOfMemory, Text};

/// A shelf in memory, whose faults its owner chooses. Its calls as a [`Shelf`] take no memory, and the faults of all
/// names are counted together.
///
/// Such a call fails exactly where its number is listed, a read has a name under which nothing was placed,
/// a start has a name for which no room was made, an append has a name that wasn't started, or no byte of a
/// piece that has any fits the room. A call that fails otherwise changes nothing.
#[derive(Drop)]
pub struct MemShelf {
    alloc: Global,
    placed: Vec<Entry<Text>>,
    outputs: Vec<Entry<Output>>,
    calls: Calls,
}

impl Model for MemShelf {
    ghost Value = { ShelfState };

    ghost view = { λ s. record { placed = s.placed.items; outputs = s.outputs.items; calls = s.calls } };
}

impl MemShelf {
    /// An empty shelf, which takes no memory. No name has room, and no call is listed to fail.
    pub fn new(alloc: Global) -> MemShelf
        ensures held { (name : List ℕ) → placed_bytes result name ≡ None }
        ensures written { (name : List ℕ) → written_bytes result name ≡ None }
        ensures room { (name : List ℕ) → room_of result name ≡ None }
        ensures calls { result.calls ≡ record { listed = []; made = 0; faults = 0 } }
    {
        MemShelf {
            alloc,
            placed: Vec::new(alloc),
            outputs: Vec::new(alloc),
            calls: Calls::new(alloc),
        }
    }

    /// Puts bytes under a name, for reads, in place of what was placed there before.
    pub fn place(&mut self, name: &str, bytes: &[u8]) -> Result<(), OutOfMemory>
        ensures ok { OnOk result (ChangesOne (placed_bytes self.old) (placed_bytes self.new) name.now
            (λ before after. after ≡ Some bytes.now)) }
        ensures rest { self.new ≡ record self.old { placed = self.new.placed } }
        ensures err { OnErr result (self.new ≡ self.old) }
    {
        let text = Text::from_bytes(self.alloc, bytes)?;
        set_value(self.alloc, &mut self.placed, name.as_bytes(), text)?;
        Ok(())
    }

    /// Lists the trait call of this number, counted from 0 over the shelf's life, as one that is to fail.
    pub fn fail_call(&mut self, number: u64) -> Result<(), OutOfMemory>
        ensures ok { OnOk result (self.new.calls
            ≡ record self.old.calls { listed = self.old.calls.listed ++ number ∷ [] }) }
        ensures rest { self.new ≡ record self.old { calls = self.new.calls } }
        ensures err { OnErr result (self.new ≡ self.old) }
    {
        self.calls.fail_call(number)
    }

    /// Raises the room for what is written under a name to this number of bytes, where it was less.
    pub fn make_room(&mut self, name: &str, bytes: u64) -> Result<(), OutOfMemory>
        ensures ok { OnOk result (ChangesOne (room_of self.old) (room_of self.new) name.now
            (λ before after. after ≡ Some (max (unwrap_or before 0) bytes))) }
        ensures written { SameTold (written_bytes self.old) (written_bytes self.new) }
        ensures rest { self.new ≡ record self.old { outputs = self.new.outputs } }
        ensures err { OnErr result (self.new ≡ self.old) }
    {
        make_room_for(
            self.alloc,
            &mut self.outputs,
            name.as_bytes(),
            bytes as usize,
        )
    }

    /// The bytes placed under a name, or `None` where nothing was placed.
    pub fn held_of(&self, name: &str) -> Option<&[u8]>
        ensures { option_copied result ≡ placed_bytes self.now name.now }
    {
        value_in(&self.placed, name.as_bytes()).map(|text| text.as_bytes())
    }

    /// The bytes written under a name, or `None` where it wasn't started.
    pub fn written_of(&self, name: &str) -> Option<&[u8]>
        ensures { option_copied result ≡ written_bytes self.now name.now }
    {
        value_in(&self.outputs, name.as_bytes()).and_then(|output| output.written())
    }
}

/// Copies what fits, from this place on, and answers how much.
pub fn copy_at(from: &[u8], at: u64, into: &mut [u8]) -> usize
    ensures count { result ≤ length into.new }
    ensures reads { Reads at result into.new from.now }
{
    if at >= from.len() as u64 {
        return 0;
    }
    let rest = &from[at as usize..];
    let count = rest.len().min(into.len());
    into[..count].copy_from_slice(&rest[..count]);
    count
}

impl Shelf for MemShelf {
    ghost held = { placed_bytes };

    ghost written = { written_bytes };

    ghost tells = { true };

    ghost faults = { λ s _ _. s.calls.faults };

    fn read_at(&mut self, name: &str, at: u64, into: &mut [u8]) -> Result<usize, Failed>
        ensures count { IfOk result (λ n. n ≤ length into.new) }
        ensures bytes { IfOk result (λ n. WhereTold (placed_bytes self.old name.now)
            (Reads at n into.new)) }
        ensures held { SameTold (placed_bytes self.old) (placed_bytes self.new) }
        ensures written { SameTold (written_bytes self.old) (written_bytes self.new) }
        ensures later { NoneFell (λ _ _. self.old.calls.faults) (λ _ _. self.new.calls.faults) }
        ensures cause { OnErr result (RoseAt (λ _ _. self.old.calls.faults)
            (λ _ _. self.new.calls.faults) Access.reading name.now) }

        // When it fails, and all that changes.
        ensures exact { IsErr result ↔ FailsToRead self.old name.now }
        ensures rest { self.new ≡ record self.old { calls = call_made self.old.calls (is_err result) } }
    {
        self.calls.begin()?;
        match self.held_of(name) {
            Some(bytes) => Ok(copy_at(bytes, at, into)),
            None => Err(self.calls.fault()),
        }
    }

    fn start(&mut self, name: &str) -> Result<(), Failed>
        ensures started { OnOk result (ChangesOne (written_bytes self.old)
            (written_bytes self.new) name.now
            (λ before after. after ≡ told_if true [])) }
        ensures failed { OnErr result (SameTold (written_bytes self.old) (written_bytes self.new)) }
        ensures held { SameTold (placed_bytes self.old) (placed_bytes self.new) }
        ensures later { NoneFell (λ _ _. self.old.calls.faults) (λ _ _. self.new.calls.faults) }
        ensures cause { OnErr result (RoseAt (λ _ _. self.old.calls.faults)
            (λ _ _. self.new.calls.faults) Access.writing name.now) }

        // When it fails, and what else changes.
        ensures exact { IsErr result ↔ FailsToStart self.old name.now }
        ensures room { SameTold (room_of self.old) (room_of self.new) }
        ensures placed { self.new.placed ≡ self.old.placed }
        ensures calls { self.new.calls ≡ call_made self.old.calls (is_err result) }
    {
        self.calls.begin()?;
        if start_output(&mut self.outputs, name.as_bytes()) {
            return Ok(());
        }
        Err(self.calls.fault())
    }

    fn append(&mut self, name: &str, piece: &[u8]) -> Result<usize, Failed>
        ensures count { IfOk result (λ n. n ≤ length piece.now) }
        ensures some { IfOk result (λ n. 0 < length piece.now → 0 < n) }
        ensures started { OnOk result (StartedIfTold true (written_bytes self.old name.now)) }
        ensures added { IfOk result (λ n. ChangesOne (written_bytes self.old)
            (written_bytes self.new) name.now
            (λ before after. after ≡ appended (take n piece.now) before)) }
        ensures failed { OnErr result (SameTold (written_bytes self.old) (written_bytes self.new)) }
        ensures held { SameTold (placed_bytes self.old) (placed_bytes self.new) }
        ensures later { NoneFell (λ _ _. self.old.calls.faults) (λ _ _. self.new.calls.faults) }
        ensures cause { OnErr result (StartedIfTold true (written_bytes self.old name.now)
            → RoseAt (λ _ _. self.old.calls.faults) (λ _ _. self.new.calls.faults) Access.writing name.now) }

        // When it fails, how much fits, and what else changes.
        ensures exact { IsErr result ↔ FailsToAppend self.old name.now (length piece.now) }
        ensures fits { IfOk result (λ n. n ≡ min (length piece.now) (spare_room self.old name.now)) }
        ensures room { SameTold (room_of self.old) (room_of self.new) }
        ensures placed { self.new.placed ≡ self.old.placed }
        ensures calls { self.new.calls ≡ call_made self.old.calls (is_err result) }
    {
        self.calls.begin()?;
        match add_to_output(&mut self.outputs, name.as_bytes(), piece) {
            Some(count) => Ok(count),
            None => Err(self.calls.fault()),
        }
    }
}
