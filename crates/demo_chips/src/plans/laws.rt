ghost use Rattle.demo_chips.specs.PlansLaws.{ChipsAreCounted, ChipsAreShort, PlanFits, PlanIsAlone, PlanIsShort, PlanIsSpelled};

use netlist_link::link_view_is_named;
use netlist_model::laws::found_driver_drives;
use plan_texts::texts_of_plans_are_spelled_or_at_fault;
use word_cutter::lines::texts_of_rows_read_back;

/// A law: the canonical text of the plan spells it, and no other plan.
pub fn demo_plan_is_spelled()
    ensures spelled { PlanIsSpelled }
    ensures alone { PlanIsAlone }
{
    texts_of_rows_read_back();
    texts_of_plans_are_spelled_or_at_fault();
}

/// A law: the plan fits each of the netlists.
pub fn demo_plan_fits()
    ensures { PlanFits }
{
    found_driver_drives();
    link_view_is_named();
}

/// A law: how many nets and bits of ports a netlist has, and how many boundary cells the plan has for it.
pub fn demo_chips_are_counted()
    ensures { ChipsAreCounted }
{
    found_driver_drives();
    link_view_is_named();
}

/// A law: the texts of the netlists and of the plan are short enough to be read.
pub fn demo_texts_are_short()
    ensures netlists { ChipsAreShort }
    ensures plan { PlanIsShort }
{}
