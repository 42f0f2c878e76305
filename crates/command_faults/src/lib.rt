// How a command ends: its faults, the line of each, and the status that it has.
// Contracts cite specs/Lines.antt (the line of each fault) and specs/Statuses.antt.
// Own: no chapter of a standard speaks of it.
//
// - `put_fault` puts exactly the fault's line: its name and its fields with one blank between them, and a line
//   feed; or, where the sink fails, a front of it. It takes no memory.
// - `Fault::status` is the status of the fault by the table: wrong words 2, refused texts 1, want of memory (in
//   whichever text) 3, a failed read 4, a failed write 5.
// - `Status::exit_number` is the number from 0 to 6.
// - The conversions from the faults of each text give the fault that holds them.
// By the contract of `put_fault`, `Fault::status`, `Status::exit_number` and the conversions.
#![tactic(auto)]

mod box_lines;
mod fault;
mod hier_lines;
mod library_lines;
mod lines;
mod link_lines;
mod plan_lines;
mod status;
mod text_lines;

pub use fault::Fault;
pub use lines::put_fault;
pub use status::Status;
