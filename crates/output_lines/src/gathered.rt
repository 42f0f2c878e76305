// Pieces that are gathered before a sink is given them.
// Contracts cite specs/GatheredLaws.antt.
// Own: no chapter of a standard speaks of it.
//
// - `Gathered` is a sink on another: what it was given is what that was given and, behind it, what is still gathered.
//   So whatever stands of a sink stands of it. It hands on what it gathered where 65,536 bytes of it stand, and at the
//   end; it takes no memory.
// - It stays on the sink that it was made on, which was given a front of what it was given itself.
// - `hand_on` gives what is gathered.
// By the contract of `Gathered` and `Page`.

mod gathered;
mod lent;
mod page;

pub use gathered::{Gathered, Origin};
pub use lent::{Lent, Named};
pub use page::Page;
