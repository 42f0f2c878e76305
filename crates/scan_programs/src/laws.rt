ghost use Rattle.scan_programs.specs.Met.{ProgramsAreMet};

use test_logic::{cells_keep_order, steps_keep_order};

/// A law: a device meets each expectation of its program, whatever its core gives the boundary cells at each moment.
pub fn programs_are_met()
    ensures { ProgramsAreMet }
{
    cells_keep_order();
    steps_keep_order();
}
