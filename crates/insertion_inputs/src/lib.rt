// What an insertion reads: the netlist of one text, and the plan of another, fitted to it, with room made
// for the test logic.
// Contracts cite specs/Inputs.antt for what is read, and specs/Faults.antt for the first fault.
// IEEE Std 1364-2001 for the netlist; IEEE Std 1149.1-2001: boundary-scan register; the order of faults is own.
//
// - `link_text` gives the netlist that a text tells with a library, and `fit_text` the plan that a text spells, what it
//   comes to for a netlist, and its device, which some text spells; room and names are there then. `fit_plan` gives
//   what a plan comes to for a netlist, before any room is made.
// - Each fails only with the first fault that stands, in this order: the netlist's words, grammar and rules; the
//   plan's text; how it fits; too many of something with the test logic. Want of memory may come in place of any.
// By the contract of the three calls.
#![tactic(auto)]

mod fault;
pub mod lower_scan_stitch;
mod netlist;
mod plan;

pub use fault::InsertFault;
pub use netlist::link_text;
pub use plan::{Fitting, fit_plan, fit_text};
