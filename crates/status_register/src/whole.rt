// The whole: the netlist of a linked one, rewritten.

ghost use Rattle.plan_fitting.specs.Devices.{device_of_fitted};
ghost use Rattle.wrapped_chip.specs.Legal.{HasControls};
ghost use Rattle.wrapped_chip.specs.Realises.{Alone};
ghost use Rattle.status_gates.specs.Realises.{RealisesStatus};
ghost use Rattle.status_stitch.specs.Stitch.{CanStitchStatus, IsStitchedStatus};

use netlist_link::Linked;
use plan_fitting::Fitted;
use status_fitting::FittedStatus;
use status_stitch::built::{built_has_status, built_status_is_alone, built_status_realises};

/// Builds the test logic of a plan, and registers of the design's own, into the prepared netlist that both were fitted
/// to. It takes no memory.
pub fn stitch_status(linked: &mut Linked, fitted: &Fitted, status: &FittedStatus)
    requires { CanStitchStatus linked.old fitted.now status.now.registers }
    ensures stitched { IsStitchedStatus linked.old linked.new fitted.now status.now.registers }
    // Through any legal events it behaves as the netlist before, wrapped in the test logic of the device with these
    // registers; and as the netlist before alone while a transparent instruction is in effect, for which that of a
    // register counts as BYPASS.
    ensures realises { RealisesStatus linked.new.arena.lists (device_of_fitted fitted.now) linked.old.arena.lists status.now.registers }
    ensures alone { Alone linked.new.arena.lists (device_of_fitted fitted.now) linked.old.arena.lists }
    // It takes events where the netlist before and the test access port do, and what clocks, clears or presets in it
    // are the netlist's own control ports, TCK and TRST.
    ensures controls { HasControls linked.new.arena.lists linked.old.arena.lists }
{
    built_has_status();
    built_status_realises();
    built_status_is_alone();
    linked.netlist().is_laid_out();
    status_stitch::stitch_status(linked, fitted, status);
}
