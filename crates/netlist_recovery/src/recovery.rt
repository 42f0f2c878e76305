// The module and the plan.
ghost use Rattle.std.specs.Prelude.{◌≡◌, IfOk};
ghost use Rattle.std.specs.Option.{option_map};
ghost use Rattle.netlist_recovery.specs.Pairs.{pair_of};
ghost use Rattle.strip_model.specs.Recovered as model;

use crate::core_modules::core_module;
use crate::plan::plan_of;
use crate::prefix::prefix_of;
use crate::sides::sides;
use bsdl_device::Device;
use plan_texts::Plan;
use std::alloc::Global;
use strip_model::Side;
use texts::OutOfMemory;
use verilog_tree::Module;

/// A module without test logic, and the plan of the test logic.
#[derive(Drop)]
pub struct Recovered {
    pub module: Module,
    pub plan: Plan,
}

fn recovered_with(
    alloc: Global,
    tree: &Module,
    device: &Device,
    prefix: &[u8],
    sides: &[Side],
) -> Result<Option<Recovered>, OutOfMemory>
    ensures { IfOk result (λ found. option_map pair_of found
        ≡ model.recovered_with tree.now device.now prefix.now sides.now) }
{
    let Some(plan) = plan_of(alloc, prefix, device)? else {
        return Ok(None);
    };
    let module = core_module(alloc, prefix, sides, tree)?;
    Ok(Some(Recovered { module, plan }))
}

/// The module and the plan that a module with test logic and its device come from, if they come from any.
pub fn recover(
    alloc: Global,
    tree: &Module,
    device: &Device,
) -> Result<Option<Recovered>, OutOfMemory>
    ensures { IfOk result (λ found. option_map pair_of found ≡ model.recovered tree.now device.now) }
{
    let items = tree.items.as_slice();
    let Some(prefix) = prefix_of(alloc, items)? else {
        return Ok(None);
    };
    match sides(alloc, device.cells.as_slice(), items)? {
        Some(found) => recovered_with(alloc, tree, device, prefix, found.as_slice()),
        None => Ok(None),
    }
}
