// What is told of a netlist that should be a device: whether their ports agree, and which expectations of a
// script aren't met.
// Contracts cite specs/Agreement.antt and specs/Verdicts.antt.
// IEEE Std 1149.1-2001: the annex on BSDL; verdicts are own.
//
// - `ports_agree`: true exactly where each port of the netlist is one of the device's, and each of the device's
//   but linkage one of the netlist's, with the same name byte for byte, direction and range. Hidden ports count for
//   none. It takes no memory.
// - `judge`: the verdict is that of a run of the script, in which every flip-flop begins unknown: how many sets
//   there are, how many expectations are met, and all others in their order, each with its line, what it wants and
//   what is read.
// - `checks`: event lines on a netlist with a device's test logic: the first illegal line, or what isn't met.
// By the contract of the two calls.
#![tactic(auto)]

pub mod checks;
mod judgement;
mod ports;
mod verdict;

pub use judgement::judge;
pub use ports::ports_agree;
pub use verdict::{Missed, Verdict};
