// A core with a device's test logic around it: specs/Places.antt and specs/Surrounds.antt say where each part stands in
// the netlist, specs/Sites.antt what each row of the boundary register takes and gives, specs/Laws.antt that the whole
// behaves as the wrapped chip, specs/Open.antt how, where TDO takes another net's value for the bypass bit, and
// specs/Home.antt that it finds home.
// IEEE Std 1149.1-2001: test logic architecture, boundary-scan register; the laws are own.
//
// - At a moment at which each row holds what the test logic has in its place, the core's own values are the chip's
//   valuation, each row is handed and captures what stands at its cell in the chip, and each output and inout bit
//   reads as the chip's (`surrounded_core_stands`).
// - Beside each run of the chip, each run of the netlist reads as the chip at every moment, TDO as the test
//   logic's, and its first flip-flops hold the core's (`surrounded_core_reads`): the controller and the registers
//   by their whole runs, the rows in one induction together, since what they capture comes from the core and what
//   the core has from them. The moments of the netlist are a run of the chip, and the chip has one run only.
// - Where TDO takes the value of any other net in the place of the bypass bit, all of this holds but for TDO, which
//   moves by that value (`surrounded_core_follows`).
// - With the bypass bit it realises the chip (`surrounded_core_realises`).
// - Its proofs run from any moment at which the parts hold a machine: a power-up is one such moment
//   (`surrounded_core_follows`, `surrounded_core_reads`), and the falling edge after five ones another
//   (`surrounded_core_finds_home`; whatever TDO takes, `surrounded_core_follows_from_home`).
// - `levels`: numbers of the parts' nets, of which the order of a whole chip is made. Laws.
// - `rows`: rows of the boundary register as gates, over whole runs. Laws.
// By the contract of its law functions.
#![tactic(auto)]

ghost use Rattle.surrounded_core.specs.Laws.{SurroundedStands, SurroundedReads, SurroundedRealises};
ghost use Rattle.surrounded_core.specs.Home.{SurroundedFindsHome, SurroundedFollowsFromHome};
ghost use Rattle.surrounded_core.specs.Open.{SurroundedFollows};

pub mod levels;
pub mod lower_instruction_gates;
pub mod rows;

use crate::rows::{chip_rows, lengths_stay, rows_follow, selected_steers};
use boundary_cells::{bidir_cells_follow, rows_step_as_bits};
use instruction_gates::register::{instruction_steps, instructions_stay_legible};
use netlist_model::images::{
    nested_behind_meets, nested_behind_starts, nested_behind_steps, operands_are_given,
};
use netlist_model::laws::{bit_of_a_direction, direction_of_a_bit, found_driver_drives};
use register_gates::{
    bypass_follows, constants_are_bits, ident_follows, steps_by_register, tdo_follows, tdo_lets_go,
};
use tap_gates::{step_is_the_machines, tap_finds_home, tap_follows};
use wrapped_chip::{one_chip_run, outside_goes_on, some_run_beside};

/// At a moment at which the rows hold what the test logic has in their places, the core's values, the rows and the
/// readings are the chip's.
pub fn surrounded_core_stands()
    ensures { SurroundedStands }
{
    rows_follow();
    bidir_cells_follow();
    chip_rows();
    nested_behind_meets();
    operands_are_given();
    found_driver_drives();
    bit_of_a_direction();
    direction_of_a_bit();
}

/// Beside each run of the chip, each run of the netlist reads as the chip at each output and inout bit, its nets carry
/// the test logic and the core's values, and TDO moves by what is shown in the place of the bypass bit.
pub fn surrounded_core_follows()
    ensures { SurroundedFollows }
{
    surrounded_core_stands();
    rows_follow();
    rows_step_as_bits();
    chip_rows();
    lengths_stay();
    selected_steers();
    tap_follows();
    step_is_the_machines();
    instruction_steps();
    instructions_stay_legible();
    steps_by_register();
    bypass_follows();
    ident_follows();
    tdo_follows();
    nested_behind_starts();
    nested_behind_steps();
    bit_of_a_direction();
    one_chip_run();
}

/// Where the bypass bit itself is shown, TDO too reads as the chip's at every moment.
pub fn surrounded_core_reads()
    ensures { SurroundedReads }
{
    surrounded_core_stands();
    rows_follow();
    rows_step_as_bits();
    chip_rows();
    lengths_stay();
    selected_steers();
    tap_follows();
    step_is_the_machines();
    instruction_steps();
    instructions_stay_legible();
    steps_by_register();
    bypass_follows();
    ident_follows();
    tdo_follows();
    nested_behind_starts();
    nested_behind_steps();
    bit_of_a_direction();
    one_chip_run();
}

/// So it realises the chip.
pub fn surrounded_core_realises()
    ensures { SurroundedRealises }
{
    surrounded_core_reads();
    some_run_beside();
}

/// And it finds home from whatever its test logic holds.
pub fn surrounded_core_finds_home()
    ensures { SurroundedFindsHome }
{
    surrounded_core_stands();
    rows_follow();
    rows_step_as_bits();
    chip_rows();
    lengths_stay();
    selected_steers();
    tap_follows();
    step_is_the_machines();
    tap_finds_home();
    instruction_steps();
    instructions_stay_legible();
    steps_by_register();
    constants_are_bits();
    bypass_follows();
    ident_follows();
    tdo_follows();
    tdo_lets_go();
    nested_behind_starts();
    nested_behind_steps();
    bit_of_a_direction();
    outside_goes_on();
}

/// So it follows the chip from home, whatever is shown in the place of the bypass bit.
pub fn surrounded_core_follows_from_home()
    ensures { SurroundedFollowsFromHome }
{
    surrounded_core_stands();
    rows_follow();
    rows_step_as_bits();
    chip_rows();
    lengths_stay();
    selected_steers();
    tap_follows();
    step_is_the_machines();
    tap_finds_home();
    instruction_steps();
    instructions_stay_legible();
    steps_by_register();
    constants_are_bits();
    bypass_follows();
    ident_follows();
    tdo_follows();
    tdo_lets_go();
    nested_behind_starts();
    nested_behind_steps();
    bit_of_a_direction();
    outside_goes_on();
}
