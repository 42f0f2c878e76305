ghost use Rattle.register_gates.specs.Laws.{BypassFollows, DataFollows, IdentFollows};
ghost use Rattle.register_gates.specs.Tdo.{TdoFollows, TdoLetsGo};
ghost use Rattle.register_gates.specs.Choices.{ChoicesAreBits};
ghost use Rattle.register_gates.specs.Constants.{ConstantsAreBits};
ghost use Rattle.register_gates.specs.Steps.{AddedInTurn, StepsByRegister};

use crate::bits::{chains_follow, shift_bits_follow};
use gate_parts::{
    appended_count, appended_more, contained_part_has_flops, contained_part_meets, flop_starts,
    flop_steps,
};
use netlist_model::laws::{contained_parts, driver_is_found, moments_of_a_run};

/// In every well-formed netlist that contains its cells, the bypass register is that of the test logic.
pub fn bypass_follows()
    ensures { BypassFollows }
{
    contained_parts();
    contained_part_meets();
    shift_bits_follow();
    moments_of_a_run();
}

/// A register of any length captures what it is fed, shifts or keeps, as the test logic says.
pub fn data_registers_follow()
    ensures { DataFollows }
{
    contained_parts();
    contained_part_meets();
    chains_follow();
}

/// The identification register is that of the test logic.
pub fn ident_follows()
    ensures { IdentFollows }
{
    contained_parts();
    contained_part_meets();
    data_registers_follow();
    moments_of_a_run();
}

/// And so is TDO.
pub fn tdo_follows()
    ensures { TdoFollows }
{
    contained_parts();
    contained_part_meets();
    contained_part_has_flops();
    flop_starts();
    flop_steps();
    driver_is_found();
    moments_of_a_run();
}

/// A falling edge of TCK in Test-Logic-Reset lets TDO go, whatever the registers hold.
pub fn tdo_lets_go()
    ensures { TdoLetsGo }
{
    contained_parts();
    contained_part_meets();
    contained_part_has_flops();
    flop_starts();
    flop_steps();
    driver_is_found();
    moments_of_a_run();
}

/// Constants have the values of their bits, and are as many.
pub fn constants_are_bits()
    ensures { ConstantsAreBits }
{}

/// The bits of two numbers have the values of the one that is chosen, and are as many.
pub fn choices_are_bits()
    ensures { ChoicesAreBits }
{}

/// What each register of the test logic holds after a step.
pub fn steps_by_register()
    ensures { StepsByRegister }
{}

/// Two parts, the second on the nets and numbers behind the first, are added as one.
pub fn added_in_turn()
    ensures { AddedInTurn }
{
    appended_count();
    appended_more();
}
