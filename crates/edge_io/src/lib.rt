// The tool's edge: shelves of named texts, and sinks.
// Contracts cite specs/Shelf.antt: what a shelf holds and took to write, and when its count of faults rose.
// Own: no chapter of a standard speaks of it.
//
// - A shelf's read gives bytes of the text that is held, from the place asked for, where the shelf tells it; then
//   it gives none only at the end. What is held never changes.
// - A shelf's start empties what is written under its own name; an append adds the first bytes of the piece that
//   it says it took, at least one of a piece that has any; no other name changes. Where the shelf tells what is
//   written, an append adds only under a name that was started. A call that fails changes nothing that is held or
//   written.
// - A read of a shelf fails only where the count of faults of reads under its name rose in that call, or stands at
//   the last value of 64 bits; a start, and an append to a name that was started, only where the count of faults
//   of writes under its name did; a call of a sink, which has one count, only where that did. No count ever falls.
//   The shelves here count all their faults together.
// - A sink's put adds the first bytes of the piece that it took, at least one of a piece that has any.
// - `read_whole` gives the whole text that is held, which is within the limit; it says `TooLong` only where the
//   held text is longer, `ReadFault` only where the count of faults of reads under the name rose; what is held or
//   written stays.
// - `write_whole` leaves exactly the text under its name; where it fails, what was there before or a front of the
//   text; the count of faults of writes under the name then rose, and no other name changed. `put_whole` does so
//   for a sink, where a front of the text is added.
// - `MemShelf`, `MemSink`: a call fails exactly where its number was listed, the name is missing, wasn't given
//   room or wasn't started, or a piece that has bytes finds no room; each call's effect is stated in full.
// - `NeverFails` fails never; a name under which nothing was placed reads as empty; what is written is dropped and
//   not told.
// - `FileShelf`, `OutSink`: they meet the rules of a shelf and of a sink and begin with no fault, but tell no
//   bytes, so nothing is said of what a file holds.
// By the contract of `Shelf`, `Sink`, `read_whole`, `write_whole`, `put_whole`, `MemShelf`, `MemSink`, `NeverFails`,
// `FileShelf`, `OutSink`.
#![tactic(auto)]

mod calls;
mod entries;
pub mod file_shelf;
pub mod mem_shelf;
pub mod mem_sink;
pub mod never_fails;
pub mod out_sink;
mod outputs;
mod reserved;
pub mod shelf;
pub mod sink;
pub mod whole;

pub use file_shelf::FileShelf;
pub use mem_shelf::MemShelf;
pub use mem_sink::MemSink;
pub use never_fails::NeverFails;
pub use out_sink::OutSink;
pub use shelf::{Failed, Shelf};
pub use sink::Sink;
pub use whole::{ReadIssue, WriteFault, put_whole, read_whole, write_whole};
