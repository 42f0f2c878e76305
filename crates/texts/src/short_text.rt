ghost use Rattle.std.specs.Prelude.{◌≡◌, ◌+◌, ◌≤◌, [], ◌++◌, length, take};

use std::marker::Model;

/// How many bytes a short text holds.
pub(crate) const SHORT: usize = 14;

/// A text of up to 14 bytes, which lie in the value itself; it takes 15 bytes.
#[derive(Drop)]
pub(crate) struct ShortText {
    len: u8,
    bytes: [u8; SHORT],
}

impl Model for ShortText {
    ghost use Rattle.std.specs.Prelude.{ℕ, ◌≤◌, List, take};

    ghost Value = { List ℕ };

    ghost view = { λ t. take t.len t.bytes };

    ghost invariant = { λ t. t.len ≤ 14 };
}

// Puts a piece behind the first `len` bytes of a row that has room for it.
fn put_behind(bytes: &mut [u8], len: usize, piece: &[u8])
    requires { len + length piece.now ≤ length bytes.old }
    ensures same_length { length bytes.new ≡ length bytes.old }
    ensures added { take (len + length piece.now) bytes.new ≡ take len bytes.old ++ piece.now }
{
    let rest = &mut bytes[len..len + piece.len()];
    rest.copy_from_slice(piece);
}

impl ShortText {
    pub(crate) fn new() -> ShortText
        ensures { result ≡ [] }
    {
        ShortText {
            len: 0,
            bytes: [0; SHORT],
        }
    }

    pub(crate) fn len(&self) -> usize
        ensures value { result ≡ length self.now }
        ensures short { result ≤ 14 }
    {
        self.len as usize
    }

    /// Adds bytes that fit at the end.
    pub(crate) fn append(&mut self, piece: &[u8])
        requires { length self.old + length piece.now ≤ 14 }
        ensures { self.new ≡ self.old ++ piece.now }
    {
        put_behind(&mut self.bytes, self.len as usize, piece);
        self.len += piece.len() as u8;
    }

    pub(crate) fn clear(&mut self)
        ensures { self.new ≡ [] }
    {
        self.len = 0;
    }

    pub(crate) fn as_bytes(&self) -> &[u8]
        ensures { result.now ≡ self.now }
    {
        &self.bytes[..self.len as usize]
    }
}
