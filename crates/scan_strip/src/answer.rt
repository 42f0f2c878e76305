// Stripping.
ghost use Rattle.std.specs.Prelude.{◌≡◌, IfErr, IfOk, OnOk, Some};
ghost use Rattle.verilog_tree.specs.IsTree.{IsTree};
ghost use Rattle.netlist_link.specs.Links.{IsLinkOf};
ghost use Rattle.strip_model.specs.Recovered.{recovered};
ghost use Rattle.strip_model.specs.Answer.{IsNotInserted};
ghost use Rattle.scan_strip.specs.declared.fault.StripFault.TheVariants.{NotInserted};
ghost use Rattle.scan_strip.specs.Stripped.{IsGivenBy, IsStripped, IsStrippedTree};

use crate::again::{give_again, link_core};
use crate::fault::StripFault;
use bsdl_device::Device;
use cell_library::Library;
use netlist_link::{Linked, link_views_agree};
use netlist_recovery::{Recovered, recover};
use plan_texts::Plan;
use std::alloc::Global;
use strip_model::gives::gives_by_the_view;
use strip_model::law::{core_is_tree, recovered_is_the_netlist, refused_by_all};
use verilog_tree::Module;

/// A module without test logic, and the plan of the test logic.
#[derive(Drop)]
pub struct Stripped {
    pub module: Module,
    pub plan: Plan,
}

/// A netlist without test logic, and the plan of the test logic.
#[derive(Drop)]
pub struct StrippedNetlist {
    pub linked: Linked,
    pub plan: Plan,
}

// Whether what was recovered gives the module and the device; its netlist is rewritten, and let go.
fn gives(
    alloc: Global,
    core: &Module,
    plan: &Plan,
    library: &Library,
    inserted: &Module,
    device: &Device,
) -> Result<(), StripFault>
    requires core { IsTree core.now }
    requires tree { IsTree inserted.now }
    requires found { recovered inserted.now device.now ≡ Some (core.now, plan.now) }
    ensures gives { OnOk result (IsGivenBy library.now core.now plan.now inserted.now device.now) }
    ensures refused { IfErr result (λ fault. fault ≡ NotInserted → IsNotInserted library.now inserted.now device.now) }
{
    gives_by_the_view();
    link_views_agree();
    refused_by_all();
    // Asked so that the proof knows that it is a library.
    let _count = library.count();
    let mut linked = link_core(alloc, core, library)?;
    give_again(alloc, plan, &mut linked, inserted, device)
}

// What was recovered, if it gives the module and the device.
fn strip_found(
    alloc: Global,
    found: Recovered,
    library: &Library,
    inserted: &Module,
    device: &Device,
) -> Result<Stripped, StripFault>
    requires core { IsTree found.module }
    requires tree { IsTree inserted.now }
    requires found { recovered inserted.now device.now ≡ Some (found.module, found.plan) }
    ensures stripped { IfOk result (λ answer. IsStrippedTree library.now inserted.now device.now answer.module answer.plan) }
    ensures refused { IfErr result (λ fault. fault ≡ NotInserted → IsNotInserted library.now inserted.now device.now) }
{
    recovered_is_the_netlist();
    // Asked so that the proof knows that it is a library.
    let _count = library.count();
    let Recovered { module, plan } = found;
    gives(alloc, &module, &plan, library, inserted, device)?;
    Ok(Stripped { module, plan })
}

/// The module and the plan that a module with test logic and its device were made from, with the cells of this library.
pub fn strip_tree(
    alloc: Global,
    inserted: &Module,
    library: &Library,
    device: &Device,
) -> Result<Stripped, StripFault>
    requires { IsTree inserted.now }
    ensures stripped { IfOk result (λ answer. IsStrippedTree library.now inserted.now device.now answer.module answer.plan) }
    ensures refused { IfErr result (λ fault. fault ≡ NotInserted → IsNotInserted library.now inserted.now device.now) }
{
    core_is_tree();
    refused_by_all();
    match recover(alloc, inserted, device)? {
        Some(found) => strip_found(alloc, found, library, inserted, device),
        None => Err(StripFault::NotInserted),
    }
}

/// The netlist and the plan that a module with test logic and its device were made from; `linked` is the netlist of the
/// module, with whose library the answer is linked.
pub fn strip(
    alloc: Global,
    inserted: &Module,
    linked: &Linked,
    device: &Device,
) -> Result<StrippedNetlist, StripFault>
    requires tree { IsTree inserted.now }
    requires linked { IsLinkOf inserted.now linked.now }
    ensures stripped { IfOk result (λ answer. IsStripped linked.now.arena.lists.library
        inserted.now device.now answer.linked answer.plan) }
    ensures refused { IfErr result (λ fault. fault ≡ NotInserted
        → IsNotInserted linked.now.arena.lists.library inserted.now device.now) }
{
    gives_by_the_view();
    link_views_agree();
    let library = linked.netlist().library();
    let stripped = strip_tree(alloc, inserted, library, device)?;
    let core = link_core(alloc, &stripped.module, library)?;
    Ok(StrippedNetlist {
        linked: core,
        plan: stripped.plan,
    })
}
