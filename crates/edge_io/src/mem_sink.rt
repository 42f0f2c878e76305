ghost use Rattle.std.specs.Prelude.{◌≡◌, ◌↔◌, ◌-◌, ◌<◌, ◌≤◌, ◌∷◌, ◌++◌, [], Some, IfOk, IsErr, OnErr, OnOk, is_err, length, max, min, take};
ghost use Rattle.edge_io.specs.Calls.{call_made};
ghost use Rattle.edge_io.specs.MemSink.{FailsToPut, SinkState};
ghost use Rattle.edge_io.specs.Shelf.{Rose, appended};

use crate::calls::Calls;
use crate::reserved::Reserved;
use crate::shelf::Failed;
use crate::sink::Sink;
use std::alloc::Global;
use std::marker::Model;
use texts::OutOfMemory;

/// A sink in memory, whose faults its owner chooses. Its calls as a [`Sink`] take no memory.
///
/// Such a call fails exactly where its number is listed, or no byte of a piece that has any fits the room,
/// which is 0 at first. A call that fails otherwise changes nothing.
#[derive(Drop)]
pub struct MemSink {
    text: Reserved,
    calls: Calls,
}

impl Model for MemSink {
    ghost Value = { SinkState };

    ghost view = { λ s. record { text = s.text; calls = s.calls } };
}

impl MemSink {
    /// A sink that was given nothing, has no room, and lists no call to fail.
    pub fn new(alloc: Global) -> MemSink
        ensures text { result.text ≡ record { room = 0; bytes = [] } }
        ensures calls { result.calls ≡ record { listed = []; made = 0; faults = 0 } }
    {
        MemSink {
            text: Reserved::new(alloc),
            calls: Calls::new(alloc),
        }
    }

    /// Lists the trait call of this number, counted from 0 over the sink's life, as one that is to fail.
    pub fn fail_call(&mut self, number: u64) -> Result<(), OutOfMemory>
        ensures ok { OnOk result (self.new.calls
            ≡ record self.old.calls { listed = self.old.calls.listed ++ number ∷ [] }) }
        ensures rest { self.new ≡ record self.old { calls = self.new.calls } }
        ensures err { OnErr result (self.new ≡ self.old) }
    {
        self.calls.fail_call(number)
    }

    /// Raises the room for what is given to this number of bytes, where it was less.
    pub fn make_room(&mut self, bytes: u64) -> Result<(), OutOfMemory>
        ensures ok { OnOk result (self.new.text ≡ record self.old.text
            { room = max self.old.text.room bytes }) }
        ensures rest { self.new ≡ record self.old { text = self.new.text } }
        ensures err { OnErr result (self.new ≡ self.old) }
    {
        self.text.make_room(bytes as usize)
    }

    /// The bytes given so far.
    pub fn given(&self) -> &[u8]
        ensures { result.now ≡ self.now.text.bytes }
    {
        self.text.as_bytes()
    }
}

impl Sink for MemSink {
    ghost given = { λ s. Some s.text.bytes };

    ghost faults = { λ s. s.calls.faults };

    fn put(&mut self, piece: &[u8]) -> Result<usize, Failed>
        ensures count { IfOk result (λ n. n ≤ length piece.now) }
        ensures some { IfOk result (λ n. 0 < length piece.now → 0 < n) }
        ensures added { IfOk result (λ n.
            Some self.new.text.bytes ≡ appended (take n piece.now) (Some self.old.text.bytes)) }
        ensures failed { OnErr result (Some self.new.text.bytes ≡ Some self.old.text.bytes) }
        ensures later { self.old.calls.faults ≤ self.new.calls.faults }
        ensures cause { OnErr result (Rose self.old.calls.faults self.new.calls.faults) }

        // When it fails, how much fits, and what else changes.
        ensures exact { IsErr result ↔ FailsToPut self.old (length piece.now) }
        ensures fits { IfOk result (λ n.
            n ≡ min (length piece.now) (self.old.text.room - length self.old.text.bytes)) }
        ensures room { self.new.text.room ≡ self.old.text.room }
        ensures calls { self.new.calls ≡ call_made self.old.calls (is_err result) }
    {
        self.calls.begin()?;
        if self.text.is_full() && !piece.is_empty() {
            return Err(self.calls.fault());
        }
        Ok(self.text.take_in(piece))
    }
}
