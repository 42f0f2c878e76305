ghost use Rattle.std.specs.Prelude.{◌≡◌, ◌<◌, ◌-◌, ◌^◌, ◌↔◌, Some, None, IsTrue};

use std::marker::Model;

/// The key of a value in a slab, or none, in eight bytes.
#[derive(Clone, Copy)]
pub(crate) struct Key {
    // The greatest number is no key.
    number: usize,
}

impl Model for Key {
    ghost use Rattle.std.specs.Prelude.{ℕ, Option, ◌<◌, ◌^◌};
    ghost use Rattle.linked_cells.specs.PlacesPacked.{key_view, key_number, number_back};

    ghost Value = { Option ℕ };

    ghost view = { λ k. key_view k.number };

    ghost inverse = { λ o. record { number = key_number o } };

    ghost inverse_ok = { λ a h. number_back a };
}

impl Key {
    /// No key.
    pub(crate) fn none() -> Key
        ensures { result ≡ None }
    {
        Key { number: usize::MAX }
    }

    /// This key, which a slab has given.
    pub(crate) fn new(number: usize) -> Key
        requires { number < 2 ^ 64 - 1 }
        ensures { result ≡ Some number }
    {
        Key { number }
    }

    /// The key, if there is one.
    pub(crate) fn get(self) -> Option<usize>
        ensures { result ≡ self }
    {
        if self.number == usize::MAX {
            None
        } else {
            Some(self.number)
        }
    }
}
