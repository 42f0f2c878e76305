ghost use Rattle.std.specs.Prelude.{◌≡◌, ◌↔◌, ◌+◌, ◌-◌, ◌≤◌, ℕ, List, [], ◌++◌, length, IsTrue, max, min, take, OnErr, OnOk, vec_len, vec_capacity};
ghost use Rattle.edge_io.specs.Reserved.{RoomedBytes};

use std::alloc::Global;
use std::marker::Model;
use texts::OutOfMemory;

/// Bytes that take no memory as they grow up to their room.
#[derive(Drop)]
pub struct Reserved {
    room: usize,
    bytes: Vec<u8>,
}

impl Model for Reserved {
    ghost Value = { RoomedBytes };

    ghost view = { λ r. record { room = r.room; bytes = r.bytes.items } };

    ghost invariant = { λ r. (vec_len r.bytes ≤ r.room) × (r.room ≤ vec_capacity r.bytes) };
}

impl Reserved {
    /// No bytes, and no room.
    pub fn new(alloc: Global) -> Reserved
        ensures { result ≡ record { room = 0; bytes = [] } }
    {
        Reserved {
            room: 0,
            bytes: Vec::new(alloc),
        }
    }

    /// Raises the room to this number of bytes where it was less.
    pub fn make_room(&mut self, room: usize) -> Result<(), OutOfMemory>
        ensures ok { OnOk result (self.new ≡ record self.old { room = max self.old.room room }) }
        ensures err { OnErr result (self.new ≡ self.old) }
    {
        if room <= self.room {
            return Ok(());
        }
        self.bytes.reserve_exact(room - self.bytes.len())?;
        self.room = room;
        Ok(())
    }

    /// Adds those first bytes of the piece that fit, and says how many.
    pub fn take_in(&mut self, piece: &[u8]) -> usize
        ensures count { result ≡ min (length piece.now) (self.old.room - length self.old.bytes) }
        ensures added { self.new ≡ record self.old { bytes = self.old.bytes ++ take result piece.now } }
    {
        let count = piece.len().min(self.room - self.bytes.len());
        let _ = self.bytes.extend_from_slice(&piece[..count]);
        count
    }

    /// Whether no byte of room is left.
    pub fn is_full(&self) -> bool
        ensures { IsTrue result ↔ (self.now.room ≤ length self.now.bytes) }
    {
        self.room <= self.bytes.len()
    }

    /// Empties the bytes and keeps their room.
    pub fn clear(&mut self)
        ensures { self.new ≡ record self.old { bytes = [] } }
    {
        self.bytes.clear();
    }

    /// The bytes that are there.
    pub fn as_bytes(&self) -> &[u8]
        ensures { result.now ≡ self.now.bytes }
    {
        self.bytes.as_slice()
    }
}
