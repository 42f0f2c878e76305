// A name as the table keeps it.

ghost use Rattle.std.specs.Prelude.{◌≡◌, List, ℕ, IfOk};
ghost use Rattle.std.specs.Cmp as Cmp;
ghost use Rattle.std.specs.Cmp.Lexicographic.{bytes_decides, nat_list_eq_equiv};
ghost use Rattle.std.specs.Hash as fed;
ghost use Rattle.std.specs.Str.{bytes_eq};

use indexmap::Equivalent;
use smallvec::SmallVec;
use std::alloc::Global;
use std::hash::{Hash, Hasher};
use std::marker::Model;
use texts::OutOfMemory;

/// A name in bytes. One of up to 16 bytes takes no memory of its own.
#[derive(Drop)]
pub struct Key {
    bytes: SmallVec<u8, 16>,
}

impl Model for Key {
    ghost use Rattle.std.specs.Prelude.{ℕ, List};

    ghost Value = { List ℕ };

    ghost view = { λ k. k.bytes.items };
}

impl Key {
    /// A copy of the name.
    pub fn new(alloc: Global, name: &[u8]) -> Result<Key, OutOfMemory>
        ensures { IfOk result (λ key. key ≡ name.now) }
    {
        Ok(Key {
            bytes: SmallVec::from_slice(alloc, name)?,
        })
    }

    /// The name.
    pub fn as_bytes(&self) -> &[u8]
        ensures { result.now ≡ self.now }
    {
        self.bytes.as_slice()
    }
}

impl PartialEq for Key {
    ghost eq = { bytes_eq };

    ghost laws = { Cmp.partial_equiv_from_equiv nat_list_eq_equiv };

    fn eq(&self, other: &Self) -> bool {
        self.as_bytes() == other.as_bytes()
    }
}

impl Eq for Key {
    ghost laws = { nat_list_eq_equiv };
}

impl Hash for Key {
    ghost use Rattle.std.proofs.Common.{ap};

    ghost hash_input = { fed.slice fed.u8 };

    ghost respects_eq = { λ x y h. ap (fed.slice fed.u8) ((bytes_decides x y).0 h) };

    fn hash<H: Hasher>(&self, state: &mut H) {
        self.as_bytes().hash(state);
    }
}

impl Equivalent<Key> for &[u8] {
    ghost use Rattle.std.proofs.Common.{ap};

    ghost equivalent = { λ q k. bytes_eq q.now k };

    ghost respects_hash = { λ q k h. ap (fed.slice fed.u8) ((bytes_decides q.now k).0 h) };

    ghost respects_eq = { λ q x y. nat_list_eq_equiv.congr q.now x y };

    fn equivalent(&self, key: &Key) -> bool {
        *self == key.as_bytes()
    }
}
