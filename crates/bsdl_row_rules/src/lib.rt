// The rules of a BSDL file on its boundary register: how its rows are numbered, and what each may be.
// Contracts cite specs/Checks.antt and RowRules.antt of bsdl_device.
// IEEE Std 1149.1-2001: the annex on BSDL; boundary-scan register. The limits are own.
//
// - `boundary_fails` says yes exactly where the rows aren't numbered from 0 to the length less one, each once, or the
//   length is 0.
// - `row_fails` says yes exactly where a rule on rows is broken.
// - `row_numbers` gives the numbers of rows.
// - Inside: kinds and functions of cells (`row_cells`), control cells by their numbers (`controls`, `disables`), and
//   how often each bit of a port stands in a row (`bit_rows`, `system_bits`).
// By the contract of these three calls.
#![tactic(auto)]

// Sets of numbers, control cells and counted bits.
mod bit_rows;
mod controls;
mod disables;
mod numbers;
mod row_cells;
mod system_bits;

// The rules.
mod boundary;
mod rows;

pub use boundary::{boundary_fails, row_numbers};
pub use rows::row_fails;
