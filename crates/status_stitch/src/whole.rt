// The whole: the netlist of a linked one, rewritten.

ghost use Rattle.status_stitch.specs.Stitch.{CanStitchStatus, IsStitchedStatus};

use crate::parts::status_netlist;
use netlist_link::Linked;
use netlist_link::draft_laws::grown_is_formed;
use plan_fitting::Fitted;
use status_fitting::{FittedRegister, FittedStatus};
use status_room::lower_scan_stitch::tap_names;
use status_room::ready::fitted_registers_can_be_built;
use stitched_netlist::formed::stitched_is_formed;
use written_netlists::names::{same_is_named, stitched_is_named, tap_names_are_entered};
use written_netlists::ready::fitted_can_stand_behind;

// The same, by the registers.
fn stitch_registers(linked: &mut Linked, fitted: &Fitted, registers: &[FittedRegister])
    requires { CanStitchStatus linked.old fitted.now registers.now }
    ensures { IsStitchedStatus linked.old linked.new fitted.now registers.now }
{
    tap_names_are_entered();
    grown_is_formed();
    stitched_is_formed();
    stitched_is_named();
    same_is_named();
    fitted_can_stand_behind();
    fitted_registers_can_be_built();
    linked.netlist().is_laid_out();
    let names = tap_names(linked, fitted);
    let mut draft = linked.begin_draft();
    status_netlist(draft.netlist_mut(), &names, fitted, registers);
    linked.close(draft);
}

/// Builds the test logic of a plan and registers into the prepared netlist that they were fitted to. It takes no memory.
pub fn stitch_status(linked: &mut Linked, fitted: &Fitted, status: &FittedStatus)
    requires { CanStitchStatus linked.old fitted.now status.now.registers }
    ensures { IsStitchedStatus linked.old linked.new fitted.now status.now.registers }
{
    stitch_registers(linked, fitted, status.registers.as_slice());
}
