// Texts and lists, as public records hold them: bytes and items that contracts see as lists, and want of
// memory as an error.
// The contracts say it of lists; specs/Places.antt says where the bytes of a text lie.
// Own: no chapter of a standard speaks of it.
//
// - `Text`, `Row`: each call adds, empties or shows just what its name says, and room that is made changes
//   nothing; where memory is refused nothing has changed. A text of up to 14 bytes takes no allocation.
// - `first_faults`: the first fault along a list, the first repeated name, where each key first stands.
// By the contract of `Text` and `Row`.
#![tactic(auto)]

pub mod first_faults;
pub mod row;
mod short_text;
pub mod text;

pub use row::Row;
pub use text::{OutOfMemory, Text};
