// Cuts a text into words as its bytes come, by a machine that takes them in runs.
// Contracts cite specs/Run.antt: the state that a machine comes to, and the byte at which it stops.
// Own: no chapter of a standard speaks of it.
//
// - `Machine::take_run` takes at least one byte at the front of a piece, and comes to the state that the steps by
//   these bytes give; it refuses only at a byte by which the machine has no step, with that byte's place.
// - `Cutter::feed` comes to the state that the steps by all bytes fed so far give, however they were cut, and
//   refuses only at the first byte by which there is no step. After a refusal every later call answers that same
//   refusal.
// - `Cutter::finish` gives the words that the machine has where the text ends.
// - `run_len` is the count of bytes at the front of a piece that are of a class; `with_digit` is a number of up to
//   eight decimal digits with one more.
// - Its laws say, of a machine that gives a language's words and can always come to an end, that a refusal stands
//   at the greatest place up to which some text of the language begins so.
// - `lines`: lines, words, skipped lines: their reader, and rows of words as they are written.
// By the contract of `Machine`, `Cutter`, `run_len`, `with_digit`.
#![tactic(auto)]

mod class;
mod cutter;
mod digits;
mod fault;
pub mod lines;
pub mod lower_texts;
mod machine;

pub use class::{ByteClass, LineBytes, run_len};
pub use cutter::Cutter;
pub use digits::with_digit;
pub use fault::CutFault;
pub use machine::Machine;
