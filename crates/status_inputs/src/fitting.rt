// The plan and the registers of two texts, with room.
ghost use Rattle.std.specs.Prelude.{IfErr, IfOk, OnOk};
ghost use Rattle.plan_texts.specs.Canonical.{IsPlan};
ghost use Rattle.insertion_inputs.specs.Inputs.{IsLinkedTree, IsReadyAs};
ghost use Rattle.status_register.specs.Stitch.{AreRegisters};
ghost use Rattle.status_inputs.specs.Inputs.{IsPreparedAs, IsFittingAs};
ghost use Rattle.status_inputs.specs.Faults.{StandsBehindPlan, StandsInRoom};

use crate::fault::StatusInsertFault;
use crate::plan::plan_text;
use crate::registers::registers_text;
use bsdl_device::registers::Extended;
use netlist_arena::ReserveFault;
use netlist_link::Linked;
use plan_fitting::Fitted;
use plan_fitting::devices::fitted_is_fitting;
use plan_texts::Plan;
use status_fitting::FittedStatus;
use status_register::lower_status_room::prepare_status;
use status_register::{extended_of, registers_make_devices};
use std::alloc::Global;

/// A plan and registers, what they come to for a netlist, and the device with these registers.
#[derive(Drop)]
pub struct StatusFitting {
    pub plan: Plan,
    pub fitted: Fitted,
    pub registers: FittedStatus,
    pub extended: Extended,
}

// Makes room for the test logic and the registers of what was fitted.
fn prepare_fitted(
    linked: &mut Linked,
    plan: &Plan,
    fitted: &Fitted,
    registers: &FittedStatus,
) -> Result<(), ReserveFault>
    requires plan { IsPlan plan.now }
    requires linked { IsLinkedTree linked.old }
    requires ready { IsReadyAs linked.old plan.now fitted.now }
    requires registers { AreRegisters linked.old plan.now registers.now }
    ensures prepared { OnOk result (IsPreparedAs linked.old plan.now fitted.now registers.now linked.new) }
    ensures fault { IfErr result (StandsInRoom linked.old fitted.now registers.now) }
{
    // Laws that the proof uses.
    fitted_is_fitting();
    registers_make_devices();
    prepare_status(linked, fitted, registers)
}

/// The plan and the registers that two texts spell, fitted to a netlist, in which room is made for the test logic and
/// the registers.
pub fn fit_texts(
    alloc: Global,
    plan: &[u8],
    registers: &[u8],
    linked: &mut Linked,
) -> Result<StatusFitting, StatusInsertFault>
    requires { IsLinkedTree linked.old }
    ensures fitting { IfOk result (λ made. IsFittingAs plan.now registers.now linked.old made.plan made.fitted
        made.registers made.extended linked.new) }
    ensures fault { IfErr result (StandsBehindPlan linked.old plan.now registers.now) }
{
    let planned = plan_text(alloc, plan, linked)?;
    let registers = registers_text(alloc, registers, &planned.plan, linked)?;
    prepare_fitted(linked, &planned.plan, &planned.fitted, &registers)?;
    let extended = extended_of(alloc, &planned.fitted, &registers)?;
    Ok(StatusFitting {
        plan: planned.plan,
        fitted: planned.fitted,
        registers,
        extended,
    })
}
