ghost use Rattle.insert_command.specs.Insertable.{TextsAreInsertable};

use demo_chips::netlists::demo_has_its_cells;
use demo_chips::plans::{
    demo_chips_are_counted, demo_plan_fits, demo_plan_is_spelled, demo_texts_are_short,
};
use verilog_texts::printing::canonical_texts_spell_their_trees;

/// A law: no fault stands in the texts of a demonstration.
pub fn demo_texts_are_insertable()
    ensures { TextsAreInsertable }
{
    canonical_texts_spell_their_trees();
    demo_plan_is_spelled();
    demo_plan_fits();
    demo_has_its_cells();
    demo_chips_are_counted();
    demo_texts_are_short();
}
