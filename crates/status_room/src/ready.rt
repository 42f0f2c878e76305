// Data registers of a design's own that were fitted can be built in. Laws only; specs/ReadyLaws.antt has the statements,
// specs/ReadyLaws.antt what building in needs.
// IEEE Std 1149.1-2001: test data registers; what is needed is own.
//
// - Of registers that some text spells and that fit a plan and its netlist, each has an opcode as long as the
//   instruction register, and captures 1 to 256 wires that a cell drives and no boundary cell moves; there are 1 to 16
//   (`fitted_registers_can_be_built`).
// - Their opcodes are none of the plan's (`fitted_registers_are_untaken`).
// By the contract of its law functions.

ghost use Rattle.status_room.specs.ReadyLaws.{FittedAreUntaken, FittedCanBeBuilt};

use netlist_model::laws::direction_of_a_bit;

/// Registers that were fitted can be built in.
pub fn fitted_registers_can_be_built()
    ensures { FittedCanBeBuilt }
{
    direction_of_a_bit();
}

/// And their opcodes are free.
pub fn fitted_registers_are_untaken()
    ensures { FittedAreUntaken }
{}
