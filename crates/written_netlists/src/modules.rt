// The netlist with the test logic built in, written as Verilog: laws that tie the text to the netlist. Each function
// has nothing to do, and its contract cites a statement in specs/ModulesLaws.antt.
// IEEE Std 1364-2001: modules and ports, hierarchical names.
//
// - It can be written with the plan's prefix (`stitched_can_be_written`). Where preparing found room, it has no
//   more cells, nets and port bits than a module may have (`stitched_keeps_limits`).
// - The module's text spells it and no other, no fault stands in it, and it has one netlist. That keeps the ports
//   and the cells of the first netlist, by the bytes of their names, with the test access port behind the ports,
//   and has five port bits more (`stitched_is_written`).
// - That netlist is the stitched one with its nets numbered anew; each cell keeps its number
//   (`stitched_is_renumbered`).
// By the contract of its law functions.

ghost use Rattle.written_netlists.specs.ModulesLaws.{StitchedCanBeWritten, StitchedIsRenumbered, StitchedIsWritten, StitchedKeepsLimits};

use crate::names::{stitched_has_free_prefix, tap_names_are_entered};
use core_sides::lower_netlist_unlink::{dense_keeps_places, written_is_renumbered};
use core_sides::lower_plan_fitting::fitted_is_fitting;
use core_sides::lower_stitched_netlist::{stitched_has_counts, stitched_keeps};
use netlist_link::{link_views_agree, some_link_view};
use verilog_texts::bytes_spell_one_tree;
use verilog_texts::printing::canonical_texts_spell_their_trees;

/// No original name begins with the plan's prefix.
pub fn stitched_can_be_written()
    ensures { StitchedCanBeWritten }
{
    fitted_is_fitting();
    stitched_has_free_prefix();
}

/// There are no more cells, nets and port bits than a module may have.
pub fn stitched_keeps_limits()
    ensures { StitchedKeepsLimits }
{
    stitched_has_counts();
}

/// The text spells one module, the module tells one netlist, and that keeps the ports and cells of the netlist
/// without the test logic.
pub fn stitched_is_written()
    ensures { StitchedIsWritten }
{
    fitted_is_fitting();
    stitched_keeps_limits();
    tap_names_are_entered();
    stitched_keeps();
    dense_keeps_places();
    stitched_has_counts();
    link_views_agree();
    some_link_view();
    canonical_texts_spell_their_trees();
    bytes_spell_one_tree();
}

/// The netlist that the module tells is the one that was written, with its nets numbered anew.
pub fn stitched_is_renumbered()
    ensures { StitchedIsRenumbered }
{
    stitched_has_counts();
    written_is_renumbered();
    dense_keeps_places();
}
