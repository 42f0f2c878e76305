// Scripts of events: the lines of an event text with their pins found in a linked netlist, where the lines are legal.
// Contracts cite specs/Rules.antt (the rules, and the first line that breaks one) and specs/Scripts.antt.
// Own: no chapter of a standard speaks of it.
//
// - `resolve` answers a script only where no line breaks a rule and each input and inout bit has its start. The
//   script has the same lines in the same order, each with its act, the bit that its word names, its value and its
//   number in the text.
// - In a script the starts come first and name each input and inout bit once; each start or set names an input or
//   inout bit and gives a clock, clear or preset port only 0 or 1; no expect names an input.
// - `resolve` answers `EventIllegal` only with the number of the first line that breaks a rule, or, where none
//   does and a start is missing, with the number of the line after the last.
// - Lines are legal or illegal at one line, and not both (a law); so `resolve` has one answer but for want of
//   memory.
// - `parts_of` gives what a line does, its word and its value.
// By the contract of `resolve`, `parts_of` and its law function.

mod bits;
mod fault;
mod laws;
mod parts;
mod resolution;
mod script;
mod starts;
mod tables;

pub use fault::ScriptFault;
pub use laws::legal_lines_are_not_illegal;
pub use parts::{Parts, parts_of};
pub use resolution::resolve;
pub use script::{Script, ScriptLine};
