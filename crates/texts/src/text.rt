ghost use Rattle.std.specs.Prelude.{◌≡◌, ◌↔◌, ℕ, List, [], ◌∷◌, ◌++◌, length, IfOk, IsTrue, OnErr, OnOk};

use crate::short_text::{SHORT, ShortText};
use std::alloc::{AllocError, AllocFailed, Global};
use std::fmt;
use std::marker::Model;
use std::mem::size_of;
use thiserror::Error;

/// Memory was refused.
#[derive(Clone, Copy, Debug, Drop, Error)]
#[error("out of memory")]
pub struct OutOfMemory;

impl From<AllocError> for OutOfMemory {
    fn from(_error: AllocError) -> OutOfMemory {
        OutOfMemory
    }
}

impl<T: Drop> From<AllocFailed<T>> for OutOfMemory {
    fn from(_error: AllocFailed<T>) -> OutOfMemory {
        OutOfMemory
    }
}

/// A text: a list of bytes, which need not be UTF-8.
///
/// It takes 16 bytes: up to 14 bytes lie in the value itself; more lie in an allocation, where they grow
/// as a `Vec` does.
pub struct Text {
    alloc: Global,
    place: Place,
}

// By hand, so that a proof over a caller doesn't ask where the bytes of each text lie that it drops.
impl Drop for Text {
    fn drop(self) {
        let Text { alloc: _, place: _ } = self;
    }
}

// Where the bytes of a text lie.
#[derive(Drop)]
enum Place {
    Short(ShortText),
    Long(Box<Vec<u8>>),
}

const _: () = prove!(size_of::<Text>() == 16);

impl Model for Text {
    ghost use Rattle.std.specs.Prelude.{ℕ, List};

    ghost Value = { List ℕ };

    ghost use Rattle.texts.specs.Places.{bytes_of};

    ghost view = { λ t. bytes_of t.place };
}

impl fmt::Debug for Text {
    fn fmt<W: fmt::Write>(&self, f: &mut fmt::Formatter<W>) -> fmt::Result {
        f.debug_struct("Text")
            .field("bytes", &self.as_bytes())
            .finish()
    }
}

// Bytes and a piece behind them, in an allocation with this room at least.
fn long_of(
    alloc: Global,
    bytes: &[u8],
    piece: &[u8],
    room: usize,
) -> Result<Box<Vec<u8>>, OutOfMemory>
    ensures { IfOk result (λ long. long.value.items ≡ bytes.now ++ piece.now) }
{
    let mut long = Vec::with_capacity(alloc, room)?;
    long.extend_from_slice(bytes)?;
    long.extend_from_slice(piece)?;
    Ok(Box::new(alloc, long)?)
}

impl Text {
    /// An empty text, which takes no allocation.
    pub fn new(alloc: Global) -> Text
        ensures { result ≡ [] }
    {
        Text {
            alloc,
            place: Place::Short(ShortText::new()),
        }
    }

    /// A text of these bytes.
    pub fn from_bytes(alloc: Global, bytes: &[u8]) -> Result<Text, OutOfMemory>
        ensures { IfOk result (λ text. text ≡ bytes.now) }
    {
        let place = if bytes.len() <= SHORT {
            let mut short = ShortText::new();
            short.append(bytes);
            Place::Short(short)
        } else {
            Place::Long(long_of(alloc, &[], bytes, bytes.len())?)
        };
        Ok(Text { alloc, place })
    }

    /// Adds a byte at the end.
    pub fn push(&mut self, byte: u8) -> Result<(), OutOfMemory>
        ensures ok { OnOk result (self.new ≡ self.old ++ byte ∷ []) }
        ensures err { OnErr result (self.new ≡ self.old) }
    {
        if let Place::Long(long) = &mut self.place {
            long.push(byte)?;
            return Ok(());
        }
        self.append(&[byte])
    }

    /// Adds bytes at the end.
    pub fn append(&mut self, piece: &[u8]) -> Result<(), OutOfMemory>
        ensures ok { OnOk result (self.new ≡ self.old ++ piece.now) }
        ensures err { OnErr result (self.new ≡ self.old) }
    {
        match &mut self.place {
            Place::Long(long) => long.extend_from_slice(piece)?,
            Place::Short(short) => {
                if piece.len() <= SHORT - short.len() {
                    short.append(piece);
                } else {
                    let room = piece.len().saturating_add(2 * SHORT);
                    let long = long_of(self.alloc, short.as_bytes(), piece, room)?;
                    self.place = Place::Long(long);
                }
            }
        }
        Ok(())
    }

    /// Makes room for so many bytes more, where memory is given. Pages of the room that are never written take none.
    pub fn make_room(&mut self, bytes: usize)
        ensures { self.new ≡ self.old }
    {
        match &mut self.place {
            Place::Long(long) => {
                let _ = long.reserve(bytes);
            }
            Place::Short(short) => {
                if bytes > SHORT {
                    if let Ok(long) = long_of(self.alloc, short.as_bytes(), &[], bytes) {
                        self.place = Place::Long(long);
                    }
                }
            }
        }
    }

    /// Empties the text and keeps its memory.
    pub fn clear(&mut self)
        ensures { self.new ≡ [] }
    {
        match &mut self.place {
            Place::Long(long) => long.clear(),
            Place::Short(short) => short.clear(),
        }
    }

    /// The bytes in order.
    pub fn as_bytes(&self) -> &[u8]
        ensures { result.now ≡ self.now }
    {
        match &self.place {
            Place::Long(long) => long.as_slice(),
            Place::Short(short) => short.as_bytes(),
        }
    }

    /// The count of bytes.
    pub fn len(&self) -> usize
        ensures { result ≡ length self.now }
    {
        self.as_bytes().len()
    }

    /// Whether there are none.
    pub fn is_empty(&self) -> bool
        ensures { IsTrue result ↔ (self.now ≡ []) }
    {
        self.as_bytes().is_empty()
    }
}
