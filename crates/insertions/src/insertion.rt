// Inserting, from texts to texts.
ghost use Rattle.std.specs.Prelude.{ℕ, List, IfErr, IfOk};
ghost use Rattle.cell_library.specs.declared.listed.ListedCell.{ListedCell};
ghost use Rattle.netlist_model.specs.Formed.{IsLaidOut};
ghost use Rattle.netlist_link.specs.Linked.{LinkedView};
ghost use Rattle.insertion_inputs.specs.Faults.{StandsInTexts};
ghost use Rattle.insertion_inputs.specs.Inputs.{IsNetlistOf, IsFittingAs};
ghost use Rattle.insertions.specs.Insertions.{IsInsertionText, IsReadied};

use crate::written_texts::{Inserted, write_texts};
use cell_library::Library;
use insertion_inputs::lower_scan_stitch::stitch;
use insertion_inputs::{Fitting, InsertFault, fit_text, link_text};
use netlist_link::Linked;
use plan_fitting::devices::fitted_is_fitting;
use plan_texts::texts_of_plans_are_spelled_or_at_fault;
use std::alloc::Global;
use texts::{OutOfMemory, Text};
use written_netlists::modules::{stitched_can_be_written, stitched_is_written};
use written_netlists::runs::{
    written_finds_home, written_has_controls, written_is_alone, written_is_alone_from_home,
    written_realises,
};

// Builds the test logic into the netlist that a plan was fitted to, and writes the texts.
fn write_stitched(
    alloc: Global,
    linked: &mut Linked,
    fitting: &Fitting,
) -> Result<Inserted, OutOfMemory>
    requires { IsReadied linked.old fitting.now.plan fitting.now.fitted fitting.now.device }
    ensures { (library : List ListedCell) (net text : List ℕ) (before : LinkedView)
        → IsNetlistOf library net before
        → IsLaidOut before.arena.lists
        → IsFittingAs text before fitting.now.plan fitting.now.fitted fitting.now.device linked.old
        → IfOk result (λ made. IsInsertionText library net text made.verilog made.bsdl made.report) }
{
    // Laws that the proof uses.
    texts_of_plans_are_spelled_or_at_fault();
    fitted_is_fitting();
    stitched_can_be_written();
    stitched_is_written();
    written_realises();
    written_is_alone();
    written_has_controls();
    written_finds_home();
    written_is_alone_from_home();
    stitch(linked, &fitting.fitted);
    linked.netlist().is_laid_out();
    write_texts(alloc, linked, fitting)
}

// Fits the plan that a text spells to a netlist, and inserts.
fn insert_into(alloc: Global, linked: &mut Linked, plan: &[u8]) -> Result<Inserted, InsertFault>
    requires { (library : List ListedCell) × (net : List ℕ) × IsNetlistOf library net linked.old }
    ensures inserted { (library : List ListedCell) (net : List ℕ)
        → IsNetlistOf library net linked.old
        → IfOk result (λ made. IsInsertionText library net plan.now made.verilog made.bsdl made.report) }
    ensures fault { (library : List ListedCell) (net : List ℕ)
        → IsNetlistOf library net linked.old
        → IfErr result (StandsInTexts library net plan.now) }
{
    linked.netlist().is_laid_out();
    let fitting = fit_text(alloc, plan, linked)?;
    Ok(write_stitched(alloc, linked, &fitting)?)
}

/// Builds the test logic of the plan that one text spells into the netlist that the other spells with this library. The
/// netlist's text is let go before the netlist is made.
pub fn insert_texts(
    alloc: Global,
    net: Text,
    plan: &[u8],
    library: Library,
) -> Result<Inserted, InsertFault>
    ensures inserted { IfOk result (λ made. IsInsertionText library net plan.now made.verilog
        made.bsdl made.report) }
    ensures fault { IfErr result (StandsInTexts library net plan.now) }
{
    let mut linked = link_text(alloc, net, library)?;
    insert_into(alloc, &mut linked, plan)
}
