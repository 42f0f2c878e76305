// Checks of a netlist against a device by event lines: whether the lines are legal for both, and which
// expectations aren't met.
// The contract of `check_lines` cites specs/ChecksLaws.antt (the text) and specs/Rules.antt (the first line that is wrong).
// IEEE Std 1149.1-2001: test access port; event lines and the text are own.
//
// - `check_lines` gives the text of the check only where the lines are legal for the netlist and keep the rule of
//   the device's test access port: TCK, TMS, TDI and TRST are given 0 and 1 alone, and TRST starts at 0. It is a
//   line for each expectation that `judge` misses, in their order, and the last line with both counts.
// - It answers `EventIllegal` only with the number of the first line that breaks a rule on events or that rule;
//   or, where none does and a start is missing, with the number of the line after the last.
// By the contract of `check_lines`.

mod check_text;
mod legal;
mod line_check;
mod tap;

pub use line_check::{Checked, check_lines};
