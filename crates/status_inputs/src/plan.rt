// The plan of a text, fitted to a netlist.
ghost use Rattle.std.specs.Prelude.{IfErr, IfOk};
ghost use Rattle.insertion_inputs.specs.Inputs.{IsLinkedTree};
ghost use Rattle.status_inputs.specs.Inputs.{IsPlanned};
ghost use Rattle.status_inputs.specs.Faults.{StandsInPlanText};

use insertion_inputs::{InsertFault, fit_plan};
use netlist_link::Linked;
use plan_fitting::Fitted;
use plan_texts::{Plan, read_plan};
use std::alloc::Global;

/// A plan, and what it comes to for a netlist.
#[derive(Drop)]
pub struct Planned {
    pub plan: Plan,
    pub fitted: Fitted,
}

/// The plan that a text spells, fitted to a netlist, in which no room is made yet.
pub fn plan_text(alloc: Global, text: &[u8], linked: &Linked) -> Result<Planned, InsertFault>
    requires { IsLinkedTree linked.now }
    ensures planned { IfOk result (λ made. IsPlanned text.now linked.now made.plan made.fitted) }
    ensures fault { IfErr result (StandsInPlanText linked.now text.now) }
{
    let plan = read_plan(alloc, text)?;
    let fitted = fit_plan(alloc, &plan, linked)?;
    Ok(Planned { plan, fitted })
}
