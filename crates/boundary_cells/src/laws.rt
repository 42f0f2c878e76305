ghost use Rattle.boundary_cells.specs.Laws.{ObserveCellsFollow, InputCellsFollow, OutputCellsFollow};
ghost use Rattle.boundary_cells.specs.ThreeState.{ControlCellsFollow, BidirCellsFollow};
ghost use Rattle.boundary_cells.specs.MachineRows.{RowsStep};

use gate_parts::contained_part_meets;
use netlist_model::laws::{contained_parts, driven_net_follows_no_pin};
use register_gates::bits::{held_bits_follow, shift_bits_follow};

/// In every well-formed netlist that contains its cells, a BC_4 cell captures the pin and shifts.
pub fn observe_cells_follow()
    ensures { ObserveCellsFollow }
{
    shift_bits_follow();
}

/// A BC_1 cell of an input captures the pin, shifts and updates, and gives the core what its mode says.
pub fn input_cells_follow()
    ensures { InputCellsFollow }
{
    shift_bits_follow();
    held_bits_follow();
    contained_parts();
    driven_net_follows_no_pin();
}

/// A BC_1 or BC_2 cell of an output captures, shifts and updates, and gives the pin's driver what its mode says.
pub fn output_cells_follow()
    ensures { OutputCellsFollow }
{
    shift_bits_follow();
    held_bits_follow();
    contained_parts();
    contained_part_meets();
    driven_net_follows_no_pin();
}

/// A control cell captures, shifts and updates, and gives its drivers' control what its mode says.
pub fn control_cells_follow()
    ensures { ControlCellsFollow }
{
    shift_bits_follow();
    held_bits_follow();
    contained_parts();
    contained_part_meets();
    driven_net_follows_no_pin();
}

/// A BC_7 cell captures the pin or the core, shifts and updates, and gives its driver the data that its mode says.
pub fn bidir_cells_follow()
    ensures { BidirCellsFollow }
{
    shift_bits_follow();
    held_bits_follow();
    contained_parts();
    contained_part_meets();
    driven_net_follows_no_pin();
}

/// Each place of the test logic's boundary register steps as the bits of a cell do.
pub fn rows_step_as_bits()
    ensures { RowsStep }
{}
