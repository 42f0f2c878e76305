// Numbers of the nets of each part of the test logic: each gate's net stands above those that it reads, where the
// part's nets are numbered by the levels of its table above what it is handed. Laws only; specs/Above.antt says
// what they speak of.
// Own: the rule on loops of netlist_model, whose nets have such numbers where there is no loop.
//
// - A table of levels that fits a table of gates (one computation) makes each gate's net stand above those that it
//   reads, where the nets of the part are numbered by their levels above what is handed in. A flip-flop's net may
//   have any smaller number.
// - So it is of the controller, the instruction register's stages, the comparison of opcodes, the selections, the
//   copies of the latched opcode, the bypass and identification registers, TDO, and rows of each kind. What a row
//   gives has a claim of its own: at a BC_7 the row's other gates read the pin's joined net, which stands above what
//   the row gives its driver.
// - Lists of cells that stand so do so together (`parts_stand_above`); and behind a core whose gates stand so under
//   its library, each gate does by its place (`stands_by_place`).
// By the contract of its law functions.

ghost use Rattle.surrounded_core.specs.Above.{PartsStandAbove, StandsByPlace};
ghost use Rattle.surrounded_core.specs.Registers.{TapStandsAbove, BypassStandsAbove, IdentStandsAbove, TdoStandsAbove, SelectionsStandAbove};
ghost use Rattle.surrounded_core.specs.Instructions.{StagesStandAbove, MatchesStandAbove, CopiesStandAbove};
ghost use Rattle.surrounded_core.specs.LevelsRows.{RowsStandAbove};

use register_gates::{choices_are_bits, constants_are_bits};

/// Lists of cells stand so together where each does.
pub fn parts_stand_above()
    ensures { PartsStandAbove }
{}

/// What it says of one cell, behind a core.
pub fn stands_by_place()
    ensures { StandsByPlace }
{}

/// The controller's gates.
pub fn tap_stands_above()
    ensures { TapStandsAbove }
{}

/// Those of the bypass register.
pub fn bypass_stands_above()
    ensures { BypassStandsAbove }
{}

/// Those of the identification register.
pub fn ident_stands_above()
    ensures { IdentStandsAbove }
{
    constants_are_bits();
    choices_are_bits();
}

/// Those that drive TDO.
pub fn tdo_stands_above()
    ensures { TdoStandsAbove }
{}

/// Those of the instruction register's two stages.
pub fn stages_stand_above()
    ensures { StagesStandAbove }
{}

/// Those that tell whether an opcode is latched.
pub fn matches_stand_above()
    ensures { MatchesStandAbove }
{}

/// Those that copy the latched opcode.
pub fn copies_stand_above()
    ensures { CopiesStandAbove }
{}

/// Those that tell what the instruction in effect selects.
pub fn selections_stand_above()
    ensures { SelectionsStandAbove }
{}

/// Those of each row of the boundary register.
pub fn rows_stand_above()
    ensures { RowsStandAbove }
{}
