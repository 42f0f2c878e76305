// Rows of the boundary register as gates, over whole runs: at every moment they carry what the test logic has
// in their places.
// Laws only, of the cells of boundary_cells. specs/Rows.antt has what a row is handed and gives,
// specs/RowsLaws.antt what it does.
// IEEE Std 1149.1-2001: boundary-scan register, the annex on BSDL (the cells BC_1, BC_2, BC_4 and BC_7).
//
// - A row is one of five kinds, with the nets and values that it is handed (`BoundaryRow`), and one law speaks of
//   all of them (`rows_follow`). In every well-formed netlist that contains the row's cells, at every moment of
//   every run up to which TCK, TRST, capture, shift, update, the modes and the bit that is shifted in carry what a
//   history of the test logic says: the shift bit is that of the row's place in the boundary list, the update bit
//   that of the update list (0 at a BC_4, which has none), and what the row gives the core, the pin's driver or
//   the drivers' control is the definition's value of what stands at the cell.
// - The same law has the row's start, its step between two moments, and what it gives under any rule for the nets
//   of pins, so that rows and core can be taken through a run together.
// - The lists of the boundary register have a bit for each cell at every moment, where the cells capture as many
//   (`lengths_stay`).
// - Nets that tell what the instruction in effect selects, with TCK, TRST and the next bit, steer a row so
//   (`selected_steers`).
// - A row of a wrapped chip has the kind, the update bit and what its cell captures in the row's place of the test
//   logic's lists (`chip_rows`).
// By the contract of its law functions.

ghost use Rattle.surrounded_core.specs.ChipRows.{ChipRows};
ghost use Rattle.surrounded_core.specs.RowsLaws.{RowsFollow};
ghost use Rattle.surrounded_core.specs.Lengths.{LengthsStay};
ghost use Rattle.surrounded_core.specs.Selections.{SelectedSteers};

use boundary_cells::{
    bidir_cells_follow, control_cells_follow, input_cells_follow, observe_cells_follow,
    output_cells_follow, rows_step_as_bits,
};
use netlist_model::laws::moments_of_a_run;

/// In every well-formed netlist that contains a row's cells, at every moment of every run, they carry the test logic's
/// bits of that row, and give the core or the pin's driver the row's value.
pub fn rows_follow()
    ensures { RowsFollow }
{
    observe_cells_follow();
    input_cells_follow();
    output_cells_follow();
    control_cells_follow();
    bidir_cells_follow();
    rows_step_as_bits();
    moments_of_a_run();
}

/// The boundary register's lists stay as long as there are cells.
pub fn lengths_stay()
    ensures { LengthsStay }
{}

/// Nets that tell what the instruction in effect selects steer a row.
pub fn selected_steers()
    ensures { SelectedSteers }
{}

/// The rows of a wrapped chip, by their places in the test logic's lists.
pub fn chip_rows()
    ensures { ChipRows }
{}
