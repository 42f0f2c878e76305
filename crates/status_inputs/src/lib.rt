// What an insertion with registers of the design's own reads: the netlist of one text, the plan of another and the
// registers of a third, both fitted to it, with room made for the test logic and the registers.
// Contracts cite specs/Inputs.antt for what is read, and specs/Faults.antt for the first fault.
// IEEE Std 1364-2001 for the netlist; IEEE Std 1149.1-2001: boundary-scan register, design-specific test data
// registers; the order of faults is own.
//
// - `fit_texts` gives the plan and the registers that two texts spell, what they come to for a netlist, and the device
//   with these registers, which some text spells; room and names are there then.
// - It fails only with the first fault that stands, in this order: the plan's text; how it fits; the text of the
//   registers; how they fit, names before wires before opcodes; too many of something with the test logic and the
//   registers. Want of memory may come in place of any.
// By the contract of `fit_texts`.
#![tactic(auto)]

mod fault;
mod fitting;
pub mod lower_status_register;
mod plan;
mod registers;

pub use fault::StatusInsertFault;
pub use fitting::{StatusFitting, fit_texts};
