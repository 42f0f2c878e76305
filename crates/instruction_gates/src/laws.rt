ghost use Rattle.instruction_gates.specs.Copies.{CopiesTell};
ghost use Rattle.instruction_gates.specs.Latches.{LatchesFollow};
ghost use Rattle.instruction_gates.specs.Matches.{MatchesTell};
ghost use Rattle.instruction_gates.specs.Selections.{SelectionsTell};
ghost use Rattle.instruction_gates.specs.Stages.{StagesFollow, StagesStep};

use gate_parts::contained_part_meets;
use netlist_model::laws::{contained_parts, moments_of_a_run};
use register_gates::bits::{chains_follow, held_bits_follow};
use register_gates::steps_by_register;

/// In every well-formed netlist that contains their cells, the latched bits are those of the test logic.
pub fn latches_follow()
    ensures { LatchesFollow }
{
    contained_parts();
    contained_part_meets();
    held_bits_follow();
}

/// And what tells whether an opcode is latched tells so, where the latched bits are known.
pub fn matches_tell()
    ensures { MatchesTell }
{
    contained_parts();
    contained_part_meets();
}

/// And the copies carry what is latched.
pub fn copies_tell()
    ensures { CopiesTell }
{
    contained_parts();
    contained_part_meets();
}

/// What is selected is what the instruction in effect selects, where no two instructions have one opcode but
/// SAMPLE and PRELOAD.
pub fn selections_tell()
    ensures { SelectionsTell }
{
    contained_part_meets();
}

/// The instruction register is that of the test logic.
pub fn stages_follow()
    ensures { StagesFollow }
{
    contained_parts();
    contained_part_meets();
    chains_follow();
    latches_follow();
    steps_by_register();
    moments_of_a_run();
}

/// And so it is after each event, whatever it held.
pub fn stages_step()
    ensures { StagesStep }
{
    contained_parts();
    contained_part_meets();
    chains_follow();
    latches_follow();
    steps_by_register();
    moments_of_a_run();
}
