// A core with a device's test logic around it, beside which data registers of the design's own stand:
// specs/Stands.antt has what stands where, specs/Realises.antt what such a netlist owes, specs/SurroundedLaws.antt that it keeps
// it. Laws only.
// IEEE Std 1149.1-2001: test data registers (design-specific), test logic architecture; the laws are own.
//
// - Where the gates of registers are there whose opcodes name nothing in the base device, and what they show goes to
//   TDO in the place of the bypass bit, each run beside the chip's reads as the chip at every output and inout bit, and
//   at TDO as the test logic with these registers; and there is such a run.
// - From whatever the test logic and the registers hold it finds home, and from there on reads so
//   (`surrounded_status_finds_home`).
// By the contract of its law functions.

ghost use Rattle.status_gates.specs.SurroundedLaws.{SurroundedStatusFindsHome, SurroundedStatusRealises};

use crate::inverses_tell;
use crate::parts::registers_tell;
use crate::runs::extended_tdo_follows;
use instruction_gates::register::instructions_stay_legible;
use netlist_model::laws::moments_of_a_run;
use register_gates::data_registers_follow;
use surrounded_core::{surrounded_core_follows, surrounded_core_follows_from_home};
use wrapped_chip::some_run_beside;

/// Such a netlist realises the chip with these registers.
pub fn surrounded_status_realises()
    ensures { SurroundedStatusRealises }
{
    surrounded_core_follows();
    extended_tdo_follows();
    inverses_tell();
    registers_tell();
    data_registers_follow();
    instructions_stay_legible();
    moments_of_a_run();
    some_run_beside();
}

/// And it finds home from whatever its test logic and the registers hold.
pub fn surrounded_status_finds_home()
    ensures { SurroundedStatusFindsHome }
{
    surrounded_core_follows_from_home();
    extended_tdo_follows();
    inverses_tell();
    registers_tell();
    instructions_stay_legible();
    moments_of_a_run();
}
