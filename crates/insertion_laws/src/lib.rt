// What an insertion wrote is stripped, and belongs together. Its functions are laws; specs/Laws.antt
// has the statements.
// IEEE Std 1149.1-2001: boundary-scan register, test access port, the annex on BSDL; the statements are own.
//
// - `insertions_are_stripped`: what an insertion wrote is given by the netlist and the plan that it read; so it is
//   stripped to a module that denotes what the netlist's does, and no other netlist with the library gives it.
// - `insertions_belong_together`: what `insert` writes are texts that belong together, so that a check by the device's
//   program misses nothing.
// - `checks`: laws: a check of a netlist that keeps and realises, by its device's program, never misses.
// By the contract of its law functions.
#![tactic(auto)]

pub mod checks;
mod laws;

pub use laws::{insertions_are_stripped, insertions_belong_together};
