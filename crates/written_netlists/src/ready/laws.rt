ghost use Rattle.written_netlists.specs.ReadyLaws.{FittedAreFew, FittedCanStandBehind};

/// A law: a plan that fits a netlist of at most 4,096 port bits has at most 8,192 boundary cells.
pub fn fitted_are_few()
    ensures { FittedAreFew }
{}

/// A law: the core of a netlist that a plan fits can stand behind the plan's boundary cells.
pub fn fitted_can_stand_behind()
    ensures { FittedCanStandBehind }
{}
