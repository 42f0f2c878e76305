// The law of the insertion: the stitched netlist behaves as the original wrapped in the plan's device, and as
// the original alone.
// specs/RunsLaws.antt has the statements, over the definitions of stitched_netlist and wrapped_chip.
// IEEE Std 1149.1-2001: test logic architecture, instructions; the laws are own.
//
// - Where the stitched netlist is well formed and has the chip's pins and control ports, it realises the wrapped
//   chip of the plan's device, and behaves as the netlist alone while a transparent instruction is in effect
//   (`stitched_realises`, `stitched_is_alone`).
// - So it does for each plan that fits a netlist without gaps whose named nets are there, with no other premise
//   (`fitting_plans_realise`, `fitting_plans_are_alone`), and the control ports are the netlist's, TCK and TRST
//   (`fitting_plans_have_controls`).
// - From whatever its test logic holds, each added flip-flop 0 or 1, five rising edges of TCK with TMS at 1 and a
//   falling edge lead it to that chip in Test-Logic-Reset (`fitting_plans_find_home`).
// By the contract of its law functions.

ghost use Rattle.stitched_netlist.specs.RunsLaws.{StitchedRealises, StitchedIsAlone, FittingPlansRealise, FittingPlansAreAlone};
ghost use Rattle.stitched_netlist.specs.RunsLaws.{FittingPlansHaveControls, FittingPlansFindHome};

use crate::formed::{stitched_is_formed, stitched_logic_is_added};
use crate::inside::stitched_surrounds;
use crate::ranks::{stitched_has_controls, stitched_has_pins};
use plan_fitting::devices::plans_suit_netlists;
use surrounded_core::{surrounded_core_finds_home, surrounded_core_realises};
use wrapped_chip::realising_is_being_alone;

/// Every pin of the stitched netlist reads as the chip that the plan's device makes of the netlist.
pub fn stitched_realises()
    ensures { StitchedRealises }
{
    stitched_surrounds();
    surrounded_core_realises();
}

/// And as the netlist alone while the instruction in effect is transparent.
pub fn stitched_is_alone()
    ensures { StitchedIsAlone }
{
    stitched_realises();
    plans_suit_netlists();
    realising_is_being_alone();
}

/// So it is for each plan that fits a netlist without gaps whose named nets are there, with no other premise.
pub fn fitting_plans_realise()
    ensures { FittingPlansRealise }
{
    stitched_realises();
    stitched_is_formed();
    stitched_has_pins();
    stitched_has_controls();
}

/// And while the instruction in effect is transparent the pins read as the netlist's alone.
pub fn fitting_plans_are_alone()
    ensures { FittingPlansAreAlone }
{
    stitched_is_alone();
    stitched_is_formed();
    stitched_has_pins();
    stitched_has_controls();
}

/// The input bits that clock, clear and preset are the netlist's, TCK and TRST.
pub fn fitting_plans_have_controls()
    ensures { FittingPlansHaveControls }
{
    stitched_has_controls();
}

/// From whatever the test logic holds, five rising edges of TCK with TMS at 1 and a falling edge lead home.
pub fn fitting_plans_find_home()
    ensures { FittingPlansFindHome }
{
    stitched_surrounds();
    stitched_is_formed();
    stitched_has_pins();
    stitched_logic_is_added();
    surrounded_core_finds_home();
}
