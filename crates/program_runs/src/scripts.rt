// The program of a device, resolved on a linked netlist that realises the device's chip: no expectation
// of it is missed.
// specs/ScriptsLaws.antt has the statements. Its functions are laws.
// IEEE Std 1149.1-2001: test access port; programs and scripts are own.
//
// - `words_name_bits`: where no own port's name has a bracket and no hidden one's ends with one, the word of a bit of
//   an own port names that bit alone.
// - `programs_are_legal`: the lines of the program, behind starts of hidden bits, are legal for the netlist: each names
//   a bit, none breaks a rule on events, and each input and inout bit has its start.
// - `scripts_run_there`: where the netlist's ports are those of another and then a test access port, each run of
//   the script that these lines come to, with every flip-flop unknown at the start, is a run by the program.
// - `scripts_are_met`: so where it realises the chip that the device makes of the other, the verdict on the script
//   misses no expectation.
// - `programs_keep_levels`: each start and set of the program that has the word of TCK, TMS, TDI or TRST gives it
//   0 or 1, and TRST starts at 0.
// By the contract of its law functions.

ghost use Rattle.program_runs.specs.ScriptsWords.{WordsNameBits};
ghost use Rattle.program_runs.specs.ScriptsLaws.{ProgramsAreLegal, ScriptsRunThere, ScriptsAreMet};
ghost use Rattle.program_runs.specs.Levels.{ProgramsKeepLevels};

use crate::{netlist_meets_program, program_names_pins};
use netlist_model::laws::direction_of_a_bit;

/// What the word of a bit names is that bit alone.
pub fn words_name_bits()
    ensures { WordsNameBits }
{}

/// The lines of a device's program are legal for a netlist with its ports.
pub fn programs_are_legal()
    ensures { ProgramsAreLegal }
{
    words_name_bits();
    direction_of_a_bit();
}

/// A run of a script of a device's program is one by the program.
pub fn scripts_run_there()
    ensures { ScriptsRunThere }
{
    words_name_bits();
    program_names_pins();
    direction_of_a_bit();
}

/// Where the netlist realises the device's chip, no expectation of the script is missed.
pub fn scripts_are_met()
    ensures { ScriptsAreMet }
{
    words_name_bits();
    scripts_run_there();
    netlist_meets_program();
}

/// The program of a device gives the inputs of its test access port 0 or 1, and starts TRST at 0.
pub fn programs_keep_levels()
    ensures { ProgramsKeepLevels }
{}
