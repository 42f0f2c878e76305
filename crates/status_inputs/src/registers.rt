// The registers of a text, fitted to a plan and a netlist.
ghost use Rattle.std.specs.Prelude.{IfErr, IfOk};
ghost use Rattle.status_inputs.specs.Inputs.{SpellsRegisters};
ghost use Rattle.status_inputs.specs.Faults.{StandsInRegisters};

use netlist_link::Linked;
use plan_texts::Plan;
use status_fitting::register_texts::{StatusFault, read_status};
use status_fitting::{FittedStatus, fit_status};
use std::alloc::Global;

/// The registers that a text spells, fitted to a plan and a netlist.
pub fn registers_text(
    alloc: Global,
    text: &[u8],
    base: &Plan,
    linked: &Linked,
) -> Result<FittedStatus, StatusFault>
    ensures fitted { IfOk result (SpellsRegisters text.now linked.now base.now) }
    ensures fault { IfErr result (StandsInRegisters linked.now base.now text.now) }
{
    let asked = read_status(alloc, text)?;
    fit_status(alloc, &asked, base, linked)
}
