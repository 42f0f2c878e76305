// The meaning checks of a BSDL file: the eleven rules in their order, and the device that a file describes
// where it breaks none.
// Contracts cite the rules of bsdl_device's specs/Checks.antt and RowRules.antt, `first_meaning_fault` and `device_of`.
// IEEE Std 1149.1-2001: the annex on BSDL; instruction register; device identification register;
// boundary-scan register. The order of the rules and the limits are own.
//
// - `first_fault` gives the first broken rule in the stated order, with the number of the first word of its
//   section, or none exactly where no rule is broken.
// - `device` gives the device that the file and its contents describe; it asks that no rule is broken.
// - The calls of `sections` give the numbers of the first words of sections; `strings_stand_within` says that the
//   first string of each section stands within the file.
// - The rules stand in two crates below: those on ports, pins, instructions and registers in bsdl_port_rules, those on
//   the boundary register in bsdl_row_rules. Tables here find the first entry of a port, in any case of letters, and
//   the first row of a number.
// - `registers`: the rules on data registers of a design's own, and the registers of their entries and opcodes.
// By the contract of `first_fault`, `device`, the calls of `sections`, and `strings_stand_within`.
#![tactic(auto)]

mod cells;
mod describe;
mod first;
mod laws;
mod pin_table;
pub mod registers;
mod row_table;
pub mod sections;

pub use describe::device;
pub use first::{BrokenRule, first_fault};
pub use laws::strings_stand_within;
