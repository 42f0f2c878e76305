// From the texts of a netlist, a plan and registers of the design's own to the netlist with the test logic and the
// registers built in, its BSDL file, and a report.
// The contract of `insert_status` cites specs/Insertions.antt, and status_inputs' specs/Faults.antt for the first
// fault.
// IEEE Std 1149.1-2001: test logic architecture, design-specific test data registers, the annex on BSDL; IEEE Std
// 1364-2001 for the netlists; the report is own.
//
// - `insert_status` gives, of a text that spells one netlist with the library, one that spells one plan, which fits it,
//   and one that spells registers, which fit both: the canonical text of a module that it alone spells, in which no
//   fault stands and which tells one netlist; that keeps the first one's ports, with the test access port behind them,
//   and its cells' places, kinds and names, and behaves as `status_register` says; the canonical text of the plan's
//   device with the registers, which it alone spells; and the report, with a line for each register.
// - Else it tells the first fault that stands in the three texts.
// By the contract of `insert_status`.
#![tactic(auto)]

mod insertion;
mod lines;
pub mod lower_insertion_inputs;
pub mod lower_insertions;
pub mod lower_status_inputs;
mod written_texts;

pub use insertion::insert_status;
