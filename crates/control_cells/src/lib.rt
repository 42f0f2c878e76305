// The boundary cells of a plan in their order, with an index of the control cells.
// Contracts cite `controls`, `control_row` and `Driver` of plan_fitting's specs/Rows.antt; specs/Keys.antt says what
// the index holds.
// IEEE Std 1149.1-2001: boundary-scan register. The order of the cells is own.
//
// - `RowTable` is the list of its cells: `push` and `push_control` add one at the end, `into_rows` gives them all.
//   There are fewer than 2^32.
// - `control_of` answers the number of the first control cell of a driver's operand and polarity, where there is one.
// By the contract of `RowTable`.
#![tactic(auto)]

mod driver;
mod keys;
mod row_table;

pub use driver::Driver;
pub use row_table::RowTable;
