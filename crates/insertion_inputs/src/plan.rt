// The plan of a text, fitted to a netlist.
ghost use Rattle.std.specs.Prelude.{IfErr, IfOk};
ghost use Rattle.plan_fitting.specs.Fits as fits;
ghost use Rattle.plan_texts.specs.Canonical.{IsPlan};
ghost use Rattle.insertion_inputs.specs.Inputs.{IsFittingAs, IsLinkedTree, IsPreparedAs, IsReadyAs};
ghost use Rattle.insertion_inputs.specs.Faults.{StandsInFit, StandsInPlan};

use crate::fault::InsertFault;
use bsdl_device::Device;
use netlist_link::Linked;
use netlist_model::laws::{direction_of_a_bit, driver_is_found};
use pin_plan::fit;
use plan_fitting::devices::{fitted_is_fitting, plans_make_devices, tap_names_are_new};
use plan_fitting::{FitFault, Fitted};
use plan_texts::{Plan, read_plan};
use scan_stitch::{device_of_fit, fitted_bits_are_there, prepare};
use std::alloc::Global;

/// A plan, what it comes to for a netlist, and the device that it makes of it.
#[derive(Drop)]
pub struct Fitting {
    pub plan: Plan,
    pub fitted: Fitted,
    pub device: Device,
}

// As many linkage lines as can be counted.
const MOST_LINES: usize = 4_294_967_290;

/// What a plan comes to for a netlist. It says `OutOfMemory` also for 2^32 linkage lines.
pub fn fit_plan(alloc: Global, plan: &Plan, linked: &Linked) -> Result<Fitted, FitFault>
    requires plan { IsPlan plan.now }
    requires linked { IsLinkedTree linked.now }
    ensures ready { IfOk result (IsReadyAs linked.now plan.now) }
    ensures fault { IfErr result (fits.IsFault linked.now plan.now) }
{
    direction_of_a_bit();
    driver_is_found();
    fitted_is_fitting();
    tap_names_are_new();
    fitted_bits_are_there();
    linked.netlist().is_laid_out();
    let fitted = fit(alloc, plan, linked)?;
    if fitted.linkage.len() > MOST_LINES {
        return Err(FitFault::OutOfMemory);
    }
    Ok(fitted)
}

// Makes room for the test logic of what was fitted.
fn prepare_plan(alloc: Global, plan: &Plan, linked: &mut Linked) -> Result<Fitted, InsertFault>
    requires plan { IsPlan plan.now }
    requires linked { IsLinkedTree linked.old }
    ensures prepared { IfOk result (λ fitted. IsPreparedAs linked.old plan.now fitted linked.new) }
    ensures fault { IfErr result (StandsInFit linked.old plan.now) }
{
    fitted_is_fitting();
    plans_make_devices();
    let fitted = fit_plan(alloc, plan, linked)?;
    prepare(linked, &fitted)?;
    Ok(fitted)
}

/// The plan that a text spells, fitted to a netlist, in which room is made for its test logic.
pub fn fit_text(alloc: Global, text: &[u8], linked: &mut Linked) -> Result<Fitting, InsertFault>
    requires { IsLinkedTree linked.old }
    ensures fitting { IfOk result (λ made. IsFittingAs text.now linked.old made.plan made.fitted
        made.device linked.new) }
    ensures fault { IfErr result (StandsInPlan linked.old text.now) }
{
    let plan = read_plan(alloc, text)?;
    let fitted = prepare_plan(alloc, &plan, linked)?;
    let device = device_of_fit(alloc, &fitted)?;
    Ok(Fitting {
        plan,
        fitted,
        device,
    })
}
