// The law of an insertion with data registers of the design's own: a netlist with a plan's test logic and such registers
// behaves as the original wrapped in the plan's device with them, and as the original alone. Laws only;
// specs/Stands.antt has what such a netlist holds, specs/RealisedLaws.antt the statements.
// IEEE Std 1149.1-2001: test data registers (design-specific), instructions; the laws are own.
//
// - What was fitted to a netlist and a plan without a fault may stand beside the plan's device: opcodes of the right
//   length that are none of the device's, and driven wires of the netlist (`fitted_registers_are_own`). While such an
//   opcode is latched the device has BYPASS in effect (`own_instructions_bypass`).
// - Every netlist that extends the one that is open to such registers, and has their gates and no control ports but the
//   core's, TCK and TRST, reads as the wrapped chip at every output and inout bit, and at TDO as the test logic with
//   the registers (`status_realises`).
// - While the instruction in effect is transparent, BYPASS for a register's own among them, it reads as the original
//   alone (`status_is_alone`).
// - From whatever its test logic and the registers hold it finds home (`status_finds_home`), and reads as the original
//   alone from there on while the instruction in effect is transparent (`status_is_alone_from_home`).
// By the contract of its law functions.

ghost use Rattle.status_stitch.specs.RealisedLaws.{FittedRegistersAreOwn, OwnInstructionsBypass};
ghost use Rattle.status_stitch.specs.RealisedLaws.{StatusRealises, StatusIsAlone};
ghost use Rattle.status_stitch.specs.RealisedLaws.{StatusFindsHome, StatusIsAloneFromHome};

use netlist_model::laws::{driven_net_follows_no_pin, driver_is_found};
use open_stitch::runs::{driven_wires_stay, pins_are_by_ports};
use plan_fitting::devices::plans_suit_netlists;
use status_gates::surrounded::{surrounded_status_finds_home, surrounded_status_realises};
use stitched_netlist::formed::stitched_logic_is_added;
use stitched_netlist::inside::built_in_surrounds;
use stitched_netlist::places::{extension_is_built_in, stitched_holds_the_core};
use stitched_netlist::ranks::stitched_has_pins;
use wrapped_chip::{home_is_alone_by, realising_is_being_alone};

/// What was fitted without a fault may stand beside the plan's device.
pub fn fitted_registers_are_own()
    ensures { FittedRegistersAreOwn }
{}

/// While the opcode of such a register is latched, the device has BYPASS in effect.
pub fn own_instructions_bypass()
    ensures { OwnInstructionsBypass }
{}

/// Such a netlist realises the chip with the registers.
pub fn status_realises()
    ensures { StatusRealises }
{
    extension_is_built_in();
    built_in_surrounds();
    pins_are_by_ports();
    stitched_has_pins();
    driven_wires_stay();
    driver_is_found();
    driven_net_follows_no_pin();
    surrounded_status_realises();
}

/// And it is the netlist alone while the instruction in effect is transparent.
pub fn status_is_alone()
    ensures { StatusIsAlone }
{
    status_realises();
    plans_suit_netlists();
    realising_is_being_alone();
}

/// From whatever its test logic and the registers hold it finds home.
pub fn status_finds_home()
    ensures { StatusFindsHome }
{
    extension_is_built_in();
    built_in_surrounds();
    pins_are_by_ports();
    stitched_has_pins();
    driven_wires_stay();
    driver_is_found();
    driven_net_follows_no_pin();
    stitched_logic_is_added();
    stitched_holds_the_core();
    surrounded_status_finds_home();
}

/// And it is the netlist alone from there on while the instruction in effect is transparent.
pub fn status_is_alone_from_home()
    ensures { StatusIsAloneFromHome }
{
    plans_suit_netlists();
    home_is_alone_by();
}
