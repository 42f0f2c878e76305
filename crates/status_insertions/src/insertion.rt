// Inserting with registers, from texts to texts.
ghost use Rattle.std.specs.Prelude.{ℕ, List, IfErr, IfOk};
ghost use Rattle.cell_library.specs.declared.listed.ListedCell.{ListedCell};
ghost use Rattle.netlist_model.specs.Formed.{IsLaidOut};
ghost use Rattle.netlist_link.specs.Linked.{LinkedView};
ghost use Rattle.insertions.specs.insertion_inputs.Inputs.{IsNetlistOf};
ghost use Rattle.status_inputs.specs.Inputs.{IsFittingAs};
ghost use Rattle.status_inputs.specs.Faults.{StandsInStatusTexts};
ghost use Rattle.status_insertions.specs.Insertions.{IsReadied, IsStatusInsertion};

use crate::written_texts::write_texts;
use cell_library::Library;
use insertions::Inserted;
use insertions::lower_insertion_inputs::link_text;
use netlist_link::Linked;
use plan_fitting::devices::fitted_is_fitting;
use plan_texts::texts_of_plans_are_spelled_or_at_fault;
use status_fitting::register_texts::texts_of_registers_are_spelled_or_at_fault;
use status_inputs::lower_status_register::{
    status_can_be_written, status_is_written, stitch_status, written_status_finds_home,
    written_status_has_controls, written_status_is_alone, written_status_is_alone_from_home,
    written_status_realises,
};
use status_inputs::{StatusFitting, StatusInsertFault, fit_texts};
use std::alloc::Global;
use texts::{OutOfMemory, Text};

// Builds the test logic and the registers into the netlist that both were fitted to, and writes the texts.
fn write_stitched(
    alloc: Global,
    linked: &mut Linked,
    fitting: &StatusFitting,
) -> Result<Inserted, OutOfMemory>
    requires { IsReadied linked.old fitting.now.plan fitting.now.fitted fitting.now.registers fitting.now.extended }
    ensures { (library : List ListedCell) (net plan lines : List ℕ) (before : LinkedView)
        → IsNetlistOf library net before
        → IsLaidOut before.arena.lists
        → IsFittingAs plan lines before fitting.now.plan fitting.now.fitted fitting.now.registers fitting.now.extended linked.old
        → IfOk result (λ made. IsStatusInsertion library net plan lines made.verilog made.bsdl made.report) }
{
    // Laws that the proof uses.
    texts_of_plans_are_spelled_or_at_fault();
    texts_of_registers_are_spelled_or_at_fault();
    fitted_is_fitting();
    status_can_be_written();
    status_is_written();
    written_status_realises();
    written_status_is_alone();
    written_status_has_controls();
    written_status_finds_home();
    written_status_is_alone_from_home();
    stitch_status(linked, &fitting.fitted, &fitting.registers);
    linked.netlist().is_laid_out();
    write_texts(alloc, linked, fitting)
}

// Fits the plan and the registers that two texts spell to a netlist, and inserts.
fn insert_into(
    alloc: Global,
    linked: &mut Linked,
    plan: &[u8],
    registers: &[u8],
) -> Result<Inserted, StatusInsertFault>
    requires { (library : List ListedCell) × (net : List ℕ) × IsNetlistOf library net linked.old }
    ensures inserted { (library : List ListedCell) (net : List ℕ)
        → IsNetlistOf library net linked.old
        → IfOk result (λ made. IsStatusInsertion library net plan.now registers.now made.verilog made.bsdl made.report) }
    ensures fault { (library : List ListedCell) (net : List ℕ)
        → IsNetlistOf library net linked.old
        → IfErr result (StandsInStatusTexts library net plan.now registers.now) }
{
    linked.netlist().is_laid_out();
    let fitting = fit_texts(alloc, plan, registers, linked)?;
    Ok(write_stitched(alloc, linked, &fitting)?)
}

/// Builds the test logic of the plan that one text spells, and the registers that another spells, into the netlist that
/// the first spells with this library. The netlist's text is let go before the netlist is made.
pub fn insert_status(
    alloc: Global,
    net: Text,
    plan: &[u8],
    registers: &[u8],
    library: Library,
) -> Result<Inserted, StatusInsertFault>
    ensures inserted { IfOk result (λ made. IsStatusInsertion library net plan.now registers.now
        made.verilog made.bsdl made.report) }
    ensures fault { IfErr result (StandsInStatusTexts library net plan.now registers.now) }
{
    let mut linked = link_text(alloc, net, library)?;
    insert_into(alloc, &mut linked, plan, registers)
}
