// The names of the netlist with the test logic built in: how many names and how much room they take, and laws on them.
// Each function has nothing to do, and its contract cites a statement in specs/.
// IEEE Std 1149.1-2001: test access port; IEEE Std 1364-2001: hierarchical names.
//
// - Where the names of the test access port are entered, each name keeps its number, none stands twice, and they
//   are all there, under one number each (`tap_names_are_entered`).
// - Of a plan that fits a netlist that is laid out and without gaps, the netlist with the test logic is well named
//   by that table (`stitched_is_named`), and so is each netlist with the same ports, nets and live cells
//   (`same_is_named`).
// - None of its original names begins with the plan's prefix (`stitched_has_free_prefix`).
// - The cells and nets that are added are no more than `room` says (`stitched_fits_room`).
// By the contract of its law functions.

ghost use Rattle.written_netlists.specs.NamesLaws.{StitchedHasFreePrefix, StitchedIsNamed, TapNamesAreEntered};
ghost use Rattle.written_netlists.specs.Same.{SameIsNamed};
ghost use Rattle.written_netlists.specs.Taken.{StitchedFitsRoom};

use core_sides::lower_plan_fitting::{prefixes_are_free, tap_names_are_new};
use core_sides::lower_stitched_netlist::{stitched_directions, stitched_holds_the_core};
use netlist_link::draft_laws::part_is_named;

/// Names keep their numbers where those of the test access port are entered, and none stands twice.
pub fn tap_names_are_entered()
    ensures { TapNamesAreEntered }
{}

/// The netlist with the test logic built in is well named.
pub fn stitched_is_named()
    ensures { StitchedIsNamed }
{
    tap_names_are_new();
    stitched_holds_the_core();
    part_is_named();
    stitched_directions();
}

/// A netlist with the same ports, nets and live cells is well named too.
pub fn same_is_named()
    ensures { SameIsNamed }
{}

/// None of its original names begins with the prefix of what was added.
pub fn stitched_has_free_prefix()
    ensures { StitchedHasFreePrefix }
{
    prefixes_are_free();
    stitched_holds_the_core();
    part_is_named();
    stitched_directions();
}

/// The cells and nets that are added are no more than there is room for.
pub fn stitched_fits_room()
    ensures { StitchedFitsRoom }
{}
