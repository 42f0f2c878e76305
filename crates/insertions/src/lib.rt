// From the texts of a netlist and a plan to the netlist with the test logic built in, its BSDL file, and a report.
// The contract of `insert_texts` cites specs/Insertions.antt, and insertion_inputs' specs/Faults.antt for
// the first fault.
// IEEE Std 1149.1-2001: test logic architecture, the annex on BSDL; IEEE Std 1364-2001 for the netlists;
// the report is own.
//
// - `insert_texts` gives, of a text that spells one netlist with the library and one that spells one plan, which fits
//   it: the canonical text of a module that it alone spells, in which no fault stands and which tells one netlist; that
//   keeps the first one's ports, with the test access port behind them, and its cells' places, kinds and names, behaves
//   as `written_netlists` says, has the control ports that it says, and finds home; the canonical text of the plan's
//   device, which it alone spells; and the report.
// - The module is exactly the tree of the netlist with the test logic built in, gate by gate as `stitched_netlist`
//   says, under the module's own name; added nets and cells are named by the plan's prefix.
// - Else it tells the first fault that stands in the two texts.
// By the contract of `insert_texts` and `netlist_text`.
#![tactic(auto)]

mod insertion;
pub mod lower_insertion_inputs;
mod written_texts;

pub use insertion::insert_texts;
pub use written_texts::{Inserted, netlist_text};
