// How commands read, write and put whole texts, and their faults of it; and how a command runs that
// makes texts of texts.
// Contracts cite specs/EdgeFaults.antt and specs/Texts.antt, over specs/Seen.antt: what a command saw of its shelf and
// its sink. That of `run_task` cites specs/Tasks.antt: what any command comes to.
// Commands cite specs/Spelled.antt and specs/Ends.antt too.
// Own: no chapter of a standard speaks of it.
//
// - A task (`specs/Tasks.antt`) is what a command reads, writes and puts, what it makes of the texts, which faults
//   stand in them, and when none does. `Finishes`, `Stands` and `Completes` say of any task that the command came
//   to its end, which fault stands, and that it comes to its end or wants memory where none does; `Keeps` says
//   what stays whatever comes of it.
// - `read_all`, `write_all`: all texts of a list of names, in order, up to the first that can't be read or
//   written; `put_text` puts one.
// - `library_of` reads the library that a command may take as its last text, `boxes_of` one that may have boxes.
// - `run_task` runs whatever makes texts of texts (a `TextCommand`) and meets its task.
// By the contract of these calls.
#![tactic(auto)]

mod inputs;
mod libraries;
mod reads;
mod tasks;
mod writes;

pub use inputs::{take_first, take_one, take_three, take_three_boxed, take_two, take_two_boxed};
pub use libraries::{boxes_of, library_of};
pub use reads::{read_all, read_text};
pub use tasks::{Made, TextCommand, run_task};
pub use writes::{put_text, write_all, write_text};
