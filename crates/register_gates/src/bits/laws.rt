ghost use Rattle.register_gates.specs.BitsLaws.{ShiftBitsFollow, HeldBitsFollow};
ghost use Rattle.register_gates.specs.Chains.{ChainsFollow};

use gate_parts::{contained_part_has_flops, contained_part_meets, flop_starts, flop_steps};

/// In every well-formed netlist that contains its cells, a bit of a shift stage captures, shifts and keeps
/// as the stage does.
pub fn shift_bits_follow()
    ensures { ShiftBitsFollow }
{
    contained_part_meets();
    contained_part_has_flops();
    flop_starts();
    flop_steps();
}

/// And a bit that is held loads and keeps.
pub fn held_bits_follow()
    ensures { HeldBitsFollow }
{
    contained_part_meets();
    contained_part_has_flops();
    flop_starts();
    flop_steps();
}

/// A shift stage of any length captures, shifts and keeps as its list does.
pub fn chains_follow()
    ensures { ChainsFollow }
{
    shift_bits_follow();
}
