// Inserting again what was recovered.
ghost use Rattle.std.specs.Prelude.{◌≡◌, ℕ, List, IfErr, IfOk, OnOk};
ghost use Rattle.netlist_link.specs.Linked.{LinkedView, HidesNone};
ghost use Rattle.plan_texts.specs.Canonical.{canonical_plan};
ghost use Rattle.verilog_tree.specs.IsTree.{IsTree};
ghost use Rattle.link_model.specs.Late.{IsLinkable};
ghost use Rattle.netlist_link.specs.Links.{IsLinkOf};
ghost use Rattle.insertion_inputs.specs.Inputs.{IsFittingAs, IsLinkedTree};
ghost use Rattle.scan_strip.specs.declared.fault.StripFault.TheVariants.{NotInserted};
ghost use Rattle.scan_strip.specs.Refusals.{CanBeFitted};
ghost use Rattle.scan_strip.specs.Stripped.{GivesBy, IsFound, IsMadeAgain, IsReadied};

use crate::fault::StripFault;
use bsdl_device::Device;
use cell_library::Library;
use insertion_inputs::lower_scan_stitch::stitch;
use insertion_inputs::{Fitting, fit_text};
use netlist_link::{Linked, faults_forbid_links, link, link_view_is_named};
use netlist_recovery::equality::Same;
use netlist_unlink::unlink;
use plan_fitting::devices::fitted_is_fitting;
use plan_texts::{
    Plan, canonical_plans_spell_themselves, texts_of_plans_are_spelled_or_at_fault, write_plan,
};
use std::alloc::Global;
use strip_model::gives::link_view_is_laid_out;
use strip_model::law::{law_of_stripping, pins_are_seen_once};
use texts::OutOfMemory;
use verilog_tree::Module;
use written_netlists::modules::stitched_can_be_written;
use written_netlists::names::tap_names_are_entered;

/// The netlist of a module.
#[tactic(auto, using(crate::proofs::Refused::link_refused))]
pub fn link_core(alloc: Global, core: &Module, library: &Library) -> Result<Linked, StripFault>
    requires { IsTree core.now }
    ensures linked { IfOk result (IsLinkOf core.now) }
    ensures library { IfOk result (λ linked. linked.arena.lists.library ≡ library.now) }
    ensures hides { IfOk result HidesNone }
    ensures fault { IfErr result (λ fault. fault ≡ NotInserted → IsLinkable library.now core.now → ⊥) }
{
    faults_forbid_links();
    // Asked so that the proof knows that it is a library.
    let _count = library.count();
    let library = library.copy(alloc)?;
    Ok(link(alloc, core, library)?)
}

// The plan, fitted to a netlist, in which room is made.
fn fit_plan(alloc: Global, plan: &Plan, linked: &mut Linked) -> Result<Fitting, StripFault>
    requires { IsLinkedTree linked.old }
    ensures fitting { IfOk result (λ made. IsFittingAs (canonical_plan plan.now) linked.old
        made.plan made.fitted made.device linked.new) }
    ensures fault { IfErr result (λ fault. fault ≡ NotInserted → CanBeFitted linked.old plan.now → ⊥) }
{
    canonical_plans_spell_themselves();
    texts_of_plans_are_spelled_or_at_fault();
    pins_are_seen_once();
    link_view_is_named();
    let text = write_plan(alloc, plan)?;
    Ok(fit_text(alloc, text.as_bytes(), linked)?)
}

// The module of the netlist with the test logic of what was fitted.
fn insert_again(
    alloc: Global,
    linked: &mut Linked,
    fitting: &Fitting,
) -> Result<Module, OutOfMemory>
    requires { IsReadied linked.old fitting.now.plan fitting.now.fitted fitting.now.device }
    ensures { (text : List ℕ) (before : LinkedView)
        → IsLinkedTree before
        → IsFittingAs text before fitting.now.plan fitting.now.fitted fitting.now.device linked.old
        → IfOk result (IsMadeAgain before fitting.now.plan fitting.now.fitted) }
{
    fitted_is_fitting();
    link_view_is_laid_out();
    stitched_can_be_written();
    stitch(linked, &fitting.fitted);
    linked.netlist().is_laid_out();
    unlink(alloc, linked, fitting.plan.prefix.as_bytes())
}

/// Whether the plan and the netlist give this module and this device.
pub fn give_again(
    alloc: Global,
    plan: &Plan,
    linked: &mut Linked,
    inserted: &Module,
    device: &Device,
) -> Result<(), StripFault>
    requires { IsFound linked.old plan.now inserted.now device.now }
    ensures gives { OnOk result (GivesBy linked.old plan.now inserted.now device.now) }
    ensures fault { IfErr result (λ fault. fault ≡ NotInserted
        → (GivesBy linked.old plan.now inserted.now device.now → ⊥)) }
{
    law_of_stripping();
    pins_are_seen_once();
    link_view_is_named();
    tap_names_are_entered();
    canonical_plans_spell_themselves();
    texts_of_plans_are_spelled_or_at_fault();
    let fitting = fit_plan(alloc, plan, linked)?;
    if !fitting.device.is_same(device) {
        return Err(StripFault::NotInserted);
    }
    let again = insert_again(alloc, linked, &fitting)?;
    if !again.is_same(inserted) {
        return Err(StripFault::NotInserted);
    }
    Ok(())
}
