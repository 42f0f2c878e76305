ghost use Rattle.std.specs.Prelude.{◌≡◌, ◌↔◌, ◌≤◌, ◌<◌, [], ◌++◌, IsTrue, IfOk, length, take, drop};

use std::alloc::Global;
use std::marker::Model;
use texts::OutOfMemory;

/// How many bytes are gathered.
const ROOM: usize = 65_536;

/// Bytes that are gathered, at most 65,536, for which all memory is taken when it is made.
#[derive(Drop)]
pub struct Page {
    bytes: Vec<u8>,
    // So many of them were taken off at the front.
    gone: usize,
}

impl Model for Page {
    ghost use Rattle.std.specs.Prelude.{◌≡◌, ◌≤◌, ℕ, List, drop, vec_len, vec_capacity};

    ghost Value = { List ℕ };

    ghost view = { λ p. drop p.gone p.bytes.items };

    ghost invariant = { λ p. record {
      within : p.gone ≤ vec_len p.bytes;
      emptied : vec_len p.bytes ≤ p.gone → vec_len p.bytes ≡ 0;
      few : vec_len p.bytes ≤ 65536;
      room : 65536 ≤ vec_capacity p.bytes;
    } };
}

impl Page {
    /// A page on which nothing is gathered.
    pub fn new(alloc: Global) -> Result<Page, OutOfMemory>
        ensures { IfOk result (λ page. page ≡ []) }
    {
        Ok(Page {
            bytes: Vec::with_capacity(alloc, ROOM)?,
            gone: 0,
        })
    }

    /// What is gathered.
    pub fn as_bytes(&self) -> &[u8]
        ensures { result.now ≡ self.now }
    {
        &self.bytes.as_slice()[self.gone..]
    }

    /// Whether nothing is gathered.
    pub fn is_empty(&self) -> bool
        ensures { IsTrue result ↔ (self.now ≡ []) }
    {
        self.as_bytes().is_empty()
    }

    /// Takes so many bytes off at the front.
    pub fn pass(&mut self, count: usize)
        requires { count ≤ length self.old }
        ensures { self.new ≡ drop count self.old }
    {
        self.gone += count;
        if self.gone == self.bytes.len() {
            self.bytes.clear();
            self.gone = 0;
        }
    }

    /// Adds those first bytes of the piece that fit, and says how many. Where nothing is gathered there is room.
    pub fn add(&mut self, piece: &[u8]) -> usize
        ensures count { result ≤ length piece.now }
        ensures some { (self.old ≡ []) → 0 < length piece.now → 0 < result }
        ensures added { self.new ≡ self.old ++ take result piece.now }
    {
        let count = piece.len().min(ROOM - self.bytes.len());
        let _ = self.bytes.extend_from_slice(&piece[..count]);
        count
    }
}
