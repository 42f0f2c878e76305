// The report of an insertion: five lines of text.
// The contract of `report` cites specs/Reports.antt.
// Own: no chapter of a standard speaks of it.
//
// - `report` gives exactly the lines `entity`, `pins`, `kept`, `instructions` and `registers` on the device, with
//   the count of the netlist's port bits, but for hidden ones, and of the core's cells.
// By the contract of `report`.
#![tactic(auto)]

mod lines;
mod report_text;

pub use report_text::report;
