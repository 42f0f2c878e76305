// The whole: the netlist of a linked one, rewritten.

ghost use Rattle.wrapped_chip.specs.Home.{AloneFromHome, FindsHome};
ghost use Rattle.wrapped_chip.specs.Realises.{Alone, Realises};
ghost use Rattle.plan_fitting.specs.Devices.{device_of_fitted};
ghost use Rattle.scan_stitch.specs.Stitch.{CanStitch, IsStitched};

use crate::names::tap_names;
use crate::parts::stitch_netlist;
use netlist_link::Linked;
use netlist_link::draft_laws::grown_is_formed;
use plan_fitting::Fitted;
use plan_fitting::devices::plans_suit_netlists;
use stitched_netlist::formed::stitched_is_formed;
use stitched_netlist::places::stitched_keeps;
use stitched_netlist::runs::{
    fitting_plans_are_alone, fitting_plans_find_home, fitting_plans_realise,
};
use wrapped_chip::copies::{same_finds_home, same_is_alone, same_realises};
use wrapped_chip::home_is_alone;
use written_netlists::names::{same_is_named, stitched_is_named, tap_names_are_entered};
use written_netlists::ready::fitted_can_stand_behind;

/// Builds the test logic of a plan into the prepared netlist that it was fitted to. It takes no memory.
pub fn stitch(linked: &mut Linked, fitted: &Fitted)
    requires { CanStitch linked.old fitted.now }
    ensures stitched { IsStitched linked.old linked.new fitted.now }
    // Through any legal events it behaves as the netlist before, wrapped in the device's test logic; and as the netlist
    // before alone while a transparent instruction is in effect.
    ensures realises { Realises linked.new.arena.lists (device_of_fitted fitted.now) linked.old.arena.lists }
    ensures alone { Alone linked.new.arena.lists (device_of_fitted fitted.now) linked.old.arena.lists }
    // From whatever the flip-flops of its test logic hold, 0 or 1 each, five ones on TMS lead it there, with
    // TRST at any level.
    ensures finds_home { FindsHome linked.new.arena.lists (device_of_fitted fitted.now) linked.old.arena.lists }
    ensures alone_from_home { AloneFromHome linked.new.arena.lists (device_of_fitted fitted.now) linked.old.arena.lists }
{
    tap_names_are_entered();
    grown_is_formed();
    stitched_is_formed();
    stitched_is_named();
    same_is_named();
    fitted_can_stand_behind();
    fitting_plans_realise();
    fitting_plans_are_alone();
    fitting_plans_find_home();
    stitched_keeps();
    same_realises();
    same_is_alone();
    same_finds_home();
    plans_suit_netlists();
    home_is_alone();
    linked.netlist().is_laid_out();
    let names = tap_names(linked, fitted);
    let mut draft = linked.begin_draft();
    let _built = stitch_netlist(draft.netlist_mut(), &names, fitted);
    linked.close(draft);
}
