// What numbers the nets of the netlist with the test logic built in (stitched_netlist), and what clocks, clears
// and presets there.
// Each function has nothing to do; specs/RanksLaws.antt has the statements.
// IEEE Std 1149.1-2001: test logic architecture, boundary-scan register; the laws are own.
//
// - Its nets can be numbered so that each gate's stands above those that it reads (`stitched_is_ordered`), and the
//   cones of its clocks, clears and presets hold input bits, constants and gates only (`stitched_has_cones`).
// - It has the netlist's pins and those of the test access port, each on one net (`stitched_has_pins`), and its
//   control ports are exactly the netlist's, TCK and TRST (`stitched_has_controls`).
// By the contract of its law functions.

ghost use Rattle.stitched_netlist.specs.RanksLaws.{StitchedIsOrdered, StitchedHasCones, StitchedHasControls, StitchedHasPins};

use crate::cells::stitched_directions;
use crate::places::{stitched_holds_its_parts, stitched_holds_the_core};
use netlist_model::laws::{
    bit_of_a_direction, direction_of_a_bit, driver_is_found, found_driver_drives,
};
use plan_fitting::control_cells_are_there;
use plan_fitting::devices::{plans_suit_netlists, rows_stand_at_bits, rows_take_the_core};
use surrounded_core::levels::{
    bypass_stands_above, copies_stand_above, ident_stands_above, matches_stand_above,
    parts_stand_above, rows_stand_above, selections_stand_above, stages_stand_above,
    stands_by_place, tap_stands_above, tdo_stands_above,
};

/// The nets can be numbered so that what a gate reads has smaller numbers than what it drives.
pub fn stitched_is_ordered()
    ensures { StitchedIsOrdered }
{
    direction_of_a_bit();
    driver_is_found();
    found_driver_drives();
    control_cells_are_there();
    tap_stands_above();
    stages_stand_above();
    matches_stand_above();
    selections_stand_above();
    copies_stand_above();
    bypass_stands_above();
    ident_stands_above();
    parts_stand_above();
    rows_stand_above();
    tdo_stands_above();
    stands_by_place();
}

/// Nothing but input bits and gates clocks, clears or presets.
pub fn stitched_has_cones()
    ensures { StitchedHasCones }
{
    direction_of_a_bit();
    driver_is_found();
    found_driver_drives();
    control_cells_are_there();
    rows_take_the_core();
    plans_suit_netlists();
    rows_stand_at_bits();
    stitched_holds_the_core();
    stitched_directions();
}

/// The input bits that do are the core's, and TCK and TRST.
pub fn stitched_has_controls()
    ensures { StitchedHasControls }
{
    bit_of_a_direction();
    direction_of_a_bit();
    driver_is_found();
    found_driver_drives();
    control_cells_are_there();
    rows_take_the_core();
    plans_suit_netlists();
    rows_stand_at_bits();
    stitched_holds_its_parts();
    stitched_holds_the_core();
    stitched_directions();
}

/// The pins of the core and the inputs of the test access port are there, each on one net and no two on the same.
pub fn stitched_has_pins()
    ensures { StitchedHasPins }
{
    bit_of_a_direction();
}
