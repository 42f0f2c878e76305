// The command that inserts: reads a netlist and a plan, and writes the netlist with the test logic built in, its BSDL
// file and a report.
// Its task stands in specs/Tasks.antt, which stands on insertions' specs/Insertions.antt.
// Own: no chapter of a standard speaks of it.
//
// - `demo`: `demo`, which makes the netlist of a number and inserts into it.
// - `status`: `status`, the same with data registers of the design's own.
// By the contract of `make`, `fault_of`, `written_and_put` and its law function.
#![tactic(auto)]

mod command;
pub mod demo;
mod inserted_texts;
mod laws;
pub mod status;

pub use command::Insert;
pub use inserted_texts::{fault_of, written_and_put};
pub use laws::free_texts_want_memory;
