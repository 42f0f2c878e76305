// The command that strips: reads a netlist with test logic and its BSDL file, and writes the netlist and a plan that
// they were made from.
// Its task stands in specs/Tasks.antt, over specs/Strippings.antt and specs/Faults.antt.
// IEEE Std 1364-2001 for the netlists, IEEE Std 1149.1-2001, the annex on BSDL, for the device; plans are own.
//
// - The netlist's text is the canonical one of the module that is recovered, which is the one that its netlist is
//   written as with the plan's prefix. The plan's text is canonical; nothing is put.
// By the contract of `make` and its law function.
#![tactic(auto)]

mod command;
mod laws;
mod stripped_texts;
mod written_answer;

pub use command::Strip;
pub use laws::stripping_faults_stand_apart;
