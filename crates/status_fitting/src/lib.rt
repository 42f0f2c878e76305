// Fits data registers of a design's own to a plan and a linked netlist: the nets that they capture, or the first fault.
// Contracts cite specs/Faults.antt (what stands against registers) and specs/Fitted.antt (what fitting gives).
// IEEE Std 1149.1-2001: test data registers, instructions, the annex on BSDL; VHDL-93, lexical elements. The order
// of faults is own.
//
// - `fit_status` answers what fitting gives (`IsFitted`) exactly where no fault stands, but for want of memory: each
//   register with its name, its instruction, its opcode, and for each word the net of the wire's bit that it names.
// - It answers a fault only where that stands, and none before it (`IsFault`): a name that can't be a register's or an
//   instruction's, a word that names no bit of a wire with a driver, an opcode that can't be its instruction's, each
//   the first along all lines.
// - Laws: in a well-named netlist a word names one net at most, and what is fitted or the first fault is one answer; in
//   a well-formed one a word names no bit of a port, hidden or not.
// - `register_texts`: data registers of a design's own, as texts, read.
// By the contract of `fit_status` and its law functions. What no clause says: wires are found by a table of names and
// indexes, made in one pass over the nets; drivers are flagged in one pass over the cells; names and opcodes that were
// given before are found by tables.
#![tactic(auto)]

// Keys of tables, and the wires of a netlist.
mod driven;
mod flags;
mod keys;
mod port_names;
pub mod register_texts;
mod wires;
mod words;

// The faults by their kinds.
mod names;
mod nets;
mod opcodes;

// What fitting gives.
mod fitted;
mod laws;
mod status_fit;

pub use fitted::{FittedRegister, FittedStatus};
pub use laws::{fitting_has_one_answer, words_name_no_ports};
pub use status_fit::fit_status;
