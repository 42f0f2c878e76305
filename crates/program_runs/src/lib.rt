// The chip that a device's test logic makes of a netlist meets the device's program, and so does each netlist that
// realises the chip.
// specs/Laws.antt has the statements, over the definitions of wrapped_chip and scan_programs. Its functions are laws.
// IEEE Std 1149.1-2001: test access port, boundary-scan register; programs are own.
//
// - `chip_meets_program`: in each run of the chip by the program's starts and sets, from any flip-flops, each
//   expectation reads its value at its moment: TDO, or the bit of an output or inout that the expectation names.
// - `realising_meets_program`, `netlist_meets_program`: so it does in each run beside such a run of a netlist that
//   realises the chip; and in each run of that netlist by the program, whatever its flip-flops hold at the start.
// - `program_names_pins`: each start of a program is of a bit of an input or inout, with the value that its port
//   starts with, and each set of an input of the test access port.
// - `some_program_run`, `some_run_beside_program`, `some_run_by_program`: there are such runs from any flip-flops,
//   whatever is outside inputs without a cell (but 0 or 1 where they control flip-flops), of which a program says nothing.
// - `plans_stand_around`: the device of a plan that fits a netlist stands around it: each cell but a control cell
//   is the first at its bit, a port at which a cell stands goes the same way in both, and no two inputs of the test
//   access port have one name.
// - `fitting_plans_meet_programs`: so each netlist that realises the chip of a plan that fits meets the program,
//   with no other premise.
// - `scripts`: a law: the program of a device, resolved on a linked netlist that realises its chip, misses nothing.
// By the contract of its law functions.
#![tactic(auto)]

ghost use Rattle.program_runs.specs.Laws.{ProgramNamesPins, ChipMeetsProgram, RealisingMeetsProgram, ProgramRunExists, RunBesideProgramExists, NetlistMeetsProgram, ProgramRunThereExists, PlansStandAround, FittingPlansMeetPrograms};

pub mod scripts;

use netlist_model::laws::{bit_of_a_direction, direction_of_a_bit};
use plan_fitting::devices::{
    controls_follow_their_rows, devices_have_ports, hidden_bits_have_none, plans_suit_netlists,
    rows_stand_at_bits, tap_names_are_new,
};
use scan_programs::programs_are_met;
use wrapped_chip::some_chip_run;

/// Each start of a program is of a bit of an input or inout, and each set of an input of the test access port.
pub fn program_names_pins()
    ensures { ProgramNamesPins }
{}

/// In each run of the chip by the program each expectation reads its value at its moment.
pub fn chip_meets_program()
    ensures { ChipMeetsProgram }
{
    programs_are_met();
    direction_of_a_bit();
}

/// And so in each run beside it of a netlist that realises the chip.
pub fn realising_meets_program()
    ensures { RealisingMeetsProgram }
{
    chip_meets_program();
}

/// From any flip-flops of the netlist, and whatever is outside inputs without a cell, there is a run of the chip by the
/// program.
pub fn some_program_run()
    ensures { ProgramRunExists }
{
    program_names_pins();
    some_chip_run();
}

/// From any flip-flops of a netlist that realises the chip there is such a run with one beside it.
pub fn some_run_beside_program()
    ensures { RunBesideProgramExists }
{
    some_program_run();
}

/// In each run by the program of a netlist that realises the chip each expectation reads its value at its moment.
pub fn netlist_meets_program()
    ensures { NetlistMeetsProgram }
{
    realising_meets_program();
    some_chip_run();
    bit_of_a_direction();
}

/// There is such a run from any flip-flops, whatever is outside inputs without a cell.
pub fn some_run_by_program()
    ensures { ProgramRunThereExists }
{
    some_run_beside_program();
}

/// The device of a plan that fits stands around the netlist.
pub fn plans_stand_around()
    ensures { PlansStandAround }
{
    devices_have_ports();
    rows_stand_at_bits();
    hidden_bits_have_none();
    controls_follow_their_rows();
    tap_names_are_new();
}

/// So each netlist that realises the chip of a plan that fits meets the device's program, with no other premise.
pub fn fitting_plans_meet_programs()
    ensures { FittingPlansMeetPrograms }
{
    netlist_meets_program();
    plans_stand_around();
    plans_suit_netlists();
}
