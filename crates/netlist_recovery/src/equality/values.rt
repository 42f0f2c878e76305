// Numbers, names, lists, and what may be there.
ghost use Rattle.std.specs.Prelude.{◌≡◌, ◌↔◌, IsTrue};

use texts::{Row, Text};

/// A type whose values can be told apart.
pub trait Same {
    /// Whether the two are equal.
    fn is_same(&self, other: &Self) -> bool
        ensures { IsTrue result ↔ (self.now ≡ other.now) };
}

impl Same for u32 {
    fn is_same(&self, other: &u32) -> bool {
        *self == *other
    }
}

impl Same for bool {
    fn is_same(&self, other: &bool) -> bool {
        *self == *other
    }
}

impl Same for Text {
    fn is_same(&self, other: &Text) -> bool {
        self.as_bytes() == other.as_bytes()
    }
}

impl<T: Same> Same for Option<T> {
    fn is_same(&self, other: &Option<T>) -> bool {
        match (self, other) {
            (None, None) => true,
            (Some(one), Some(two)) => one.is_same(two),
            (None, Some(_)) | (Some(_), None) => false,
        }
    }
}

// Whether two lists of one length have the same items.
fn same_items<T: Same>(one: &[T], other: &[T]) -> bool
    ensures { IsTrue result ↔ (one.now ≡ other.now) }
{
    if one.len() != other.len() {
        return false;
    }
    for place in 0..one.len() {
        if !one[place].is_same(&other[place]) {
            return false;
        }
    }
    true
}

impl<T: Same + Drop> Same for Row<T> {
    fn is_same(&self, other: &Row<T>) -> bool {
        same_items(self.as_slice(), other.as_slice())
    }
}
