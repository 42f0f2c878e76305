// The command that inserts with registers of the design's own: reads a netlist, a plan and registers, and writes the
// netlist with the test logic and the registers built in, its BSDL file and a report.
// Its task stands in specs/StatusTasks.antt, which stands on status_insertions' specs/Insertions.antt.
// Own: no chapter of a standard speaks of it.
//
// By the contract of `make` and its law function.

mod command;
mod inserted_texts;
mod laws;

pub use command::InsertStatus;
pub use laws::free_status_texts_want_memory;
