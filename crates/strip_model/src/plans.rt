// That the device of a plan tells the plan, but for what doesn't matter: the spelling of words that name bits, the kind
// of control cells where there are none, and version 2 where there is no usercode. Laws on definitions.
// IEEE Std 1149.1-2001: the annex on BSDL.
//
// - What the device tells is the plan with these three changed, and comes to the same cells, ports and codes.
// - It fits the netlist as the plan did, and some text spells it: a plan with other words of bits, another kind of
//   control cells and the version that its usercode wants is spelled where the plan is.
// By the contract of its law functions.

ghost use Rattle.strip_model.specs.PlansAgain.{ToldPlanFits};
ghost use Rattle.strip_model.specs.Others.{OtherLinesSpell};
ghost use Rattle.strip_model.specs.Spell.{ToldPlanIsSpelled};
ghost use Rattle.strip_model.specs.PlansTold.{PlanIsTold, SameIsFitted};

use netlist_model::laws::{direction_of_a_bit, driver_is_found};
use word_cutter::lines::{rows_of_texts_are_rows, texts_of_rows_read_back};

/// A law: a plan with other words of bits, another kind of control cells and the version that its usercode wants is
/// spelled by some bytes, where the plan is.
pub fn plans_with_other_lines_are_spelled()
    ensures { OtherLinesSpell }
{
    rows_of_texts_are_rows();
    texts_of_rows_read_back();
}

/// A law: the plan is told.
pub fn plan_is_told()
    ensures { PlanIsTold }
{
    direction_of_a_bit();
    driver_is_found();
}

/// A law: what is told comes to the same.
pub fn same_is_fitted()
    ensures { SameIsFitted }
{
    direction_of_a_bit();
    driver_is_found();
}

/// A law: the plan that is told fits.
pub fn told_plan_fits()
    ensures { ToldPlanFits }
{
    direction_of_a_bit();
    driver_is_found();
}

/// A law: some text spells it.
pub fn told_plan_is_spelled()
    ensures { ToldPlanIsSpelled }
{
    plans_with_other_lines_are_spelled();
    direction_of_a_bit();
    driver_is_found();
}
