// How the netlist behaves that is written with its test logic: as the wrapped chip of the plan's device, and as
// the netlist alone.
// Each function has nothing to do, and its contract cites a statement in specs/RunsLaws.antt.
// IEEE Std 1149.1-2001: test logic architecture.
//
// - Of a plan that fits a netlist: in each netlist that the written text tells, through any legal events every pin
//   reads as the netlist's wrapped in the test logic of the plan's device, and the core's flip-flops hold what
//   they hold there (`written_realises`); and while the instruction in effect is transparent every pin reads as
//   the netlist's alone (`written_is_alone`). Its control ports are the netlist's, TCK and TRST
//   (`written_has_controls`).
// - From whatever its test logic holds, each added flip-flop 0 or 1, five rising edges of TCK with TMS at 1 and a
//   falling edge lead it to that chip in Test-Logic-Reset (`written_finds_home`), and it is the netlist alone from
//   there on while a transparent instruction is in effect (`written_is_alone_from_home`).
// By the contract of its law functions.

ghost use Rattle.written_netlists.specs.RunsLaws.{WrittenRealises, WrittenIsAlone, WrittenHasControls, WrittenFindsHome, WrittenIsAloneFromHome};

use crate::modules::stitched_is_renumbered;
use core_sides::lower_plan_fitting::{fitted_is_fitting, plans_suit_netlists};
use core_sides::lower_stitched_netlist::{
    fitting_plans_are_alone, fitting_plans_find_home, fitting_plans_have_controls,
    fitting_plans_realise, stitched_is_formed, stitched_keeps,
};
use wrapped_chip::copies::{
    renumbered_finds_home, renumbered_has_controls, renumbered_is_alone, renumbered_realises,
};
use wrapped_chip::home_is_alone;

/// Every pin of the written netlist reads as the chip that the plan's device makes of the netlist.
pub fn written_realises()
    ensures { WrittenRealises }
{
    fitted_is_fitting();
    fitting_plans_realise();
    stitched_is_formed();
    stitched_is_renumbered();
    stitched_keeps();
    renumbered_realises();
}

/// And as the netlist alone while the instruction in effect is transparent.
pub fn written_is_alone()
    ensures { WrittenIsAlone }
{
    fitted_is_fitting();
    fitting_plans_are_alone();
    stitched_is_formed();
    stitched_is_renumbered();
    stitched_keeps();
    renumbered_is_alone();
}

/// Its control ports are the netlist's, TCK and TRST.
pub fn written_has_controls()
    ensures { WrittenHasControls }
{
    fitted_is_fitting();
    fitting_plans_have_controls();
    stitched_is_renumbered();
    renumbered_has_controls();
}

/// From whatever its test logic holds it finds home.
pub fn written_finds_home()
    ensures { WrittenFindsHome }
{
    fitted_is_fitting();
    fitting_plans_find_home();
    stitched_is_formed();
    stitched_is_renumbered();
    stitched_keeps();
    renumbered_finds_home();
}

/// And it is alone from there on while the instruction in effect is transparent.
pub fn written_is_alone_from_home()
    ensures { WrittenIsAloneFromHome }
{
    fitted_is_fitting();
    plans_suit_netlists();
    home_is_alone();
}
