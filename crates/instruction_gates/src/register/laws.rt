ghost use Rattle.instruction_gates.specs.RegisterLaws.{InstructionFollows, RegistersFit};
ghost use Rattle.instruction_gates.specs.Steps.{InstructionSteps, InstructionsStayLegible};

use crate::{copies_tell, matches_tell, selections_tell, stages_follow, stages_step};
use netlist_model::laws::{contained_parts, moments_of_a_run};
use register_gates::lower_tap_gates::step_is_the_machines;
use register_gates::{constants_are_bits, steps_by_register};

/// In every well-formed netlist that contains its cells, the instruction register is that of the test logic, and so is
/// what the instruction in effect selects.
pub fn instruction_follows()
    ensures { InstructionFollows }
{
    contained_parts();
    stages_follow();
    matches_tell();
    selections_tell();
    copies_tell();
    constants_are_bits();
    steps_by_register();
    moments_of_a_run();
}

/// And so it is step by step, from whatever its stages hold.
pub fn instruction_steps()
    ensures { InstructionSteps }
{
    contained_parts();
    stages_follow();
    stages_step();
    matches_tell();
    selections_tell();
    copies_tell();
    constants_are_bits();
    steps_by_register();
    moments_of_a_run();
}

/// The latched bits are 0 or 1 from Test-Logic-Reset on, whatever the shift stage holds there.
pub fn instructions_stay_legible()
    ensures { InstructionsStayLegible }
{
    steps_by_register();
    step_is_the_machines();
}

/// The codes of each device that some BSDL text describes fit the register.
pub fn registers_fit()
    ensures { RegistersFit }
{}
