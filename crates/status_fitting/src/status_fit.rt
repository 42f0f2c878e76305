// Fitting registers of a design's own.
ghost use Rattle.std.specs.Prelude.{IfErr, IfOk};
ghost use Rattle.status_fitting.specs.Faults.{HasNoFault, IsFault, IsSpelled};
ghost use Rattle.status_fitting.specs.Fitted.{IsFitted};

use crate::fitted::FittedStatus;
use crate::names::find_name_fault;
use crate::nets::fit_rows;
use crate::opcodes::find_taken;
use crate::register_texts::{StatusFault, StatusPlan};
use crate::wires::WireTable;
use netlist_link::Linked;
use plan_texts::Plan;
use std::alloc::Global;

/// Fits registers to a plan and a netlist, in time linear in lines, nets and cells: the nets that they capture where no
/// fault stands, else the first fault in the order of `StatusFault`.
pub fn fit_status(
    alloc: Global,
    plan: &StatusPlan,
    base: &Plan,
    linked: &Linked,
) -> Result<FittedStatus, StatusFault>
    requires { IsSpelled plan.now }
    ensures fitted { IfOk result (IsFitted linked.now plan.now) }
    ensures faultless { IfOk result (λ _. HasNoFault linked.now base.now plan.now) }
    ensures fault { IfErr result (IsFault linked.now base.now plan.now) }
{
    let rows = plan.registers.as_slice();
    let barred = find_name_fault(alloc, plan)?;
    match barred {
        Some(fault) => return Err(fault),
        None => {}
    }
    let wires = WireTable::of(alloc, linked)?;
    let registers = fit_rows(alloc, &wires, rows)?;
    let taken = find_taken(alloc, base, rows)?;
    match taken {
        Some(fault) => Err(fault),
        None => Ok(FittedStatus { registers }),
    }
}
