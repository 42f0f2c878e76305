// The program of a device: events that work its test access port, with what must be read after them.
// Contracts cite specs/Program.antt (the list of lines), specs/Scans.antt (the cycles of TCK), specs/Pins.antt (words
// and cells of pins) and specs/Cells.antt (what the boundary cells capture and pins read); specs/Met.antt says when a
// device meets lines.
// IEEE Std 1149.1-2001: test access port, TAP controller, boundary-scan register; which scans a program makes is own.
//
// - `program`, for a device that some text spells, answers exactly the program's lines, numbered as in their
//   canonical text: the starts, all cycles of TCK with the sets that make them, and an expectation of TDO and of
//   the pins just where their value is known though nothing is known of the core. These lines are what some text
//   spells: each pin is a word, and there are at most 1,000,000.
// - A law, of every device (`programs_are_met`): whatever the core gives the boundary cells at each moment, a run
//   of the device's test logic by the sets of its program meets each expectation at its moment.
// By the contract of `program` and its law function.
#![tactic(auto)]

mod bench;
mod cell_table;
mod cells;
mod clocks;
mod laws;
mod lines;
mod pins;
mod program_lines;

pub use laws::programs_are_met;
pub use program_lines::program;
