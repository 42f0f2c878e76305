// The netlist with a plan's test logic and data registers of the design's own built in, cell by cell: specs/Built.antt;
// that it behaves as the original wrapped in the plan's device with the registers: specs/BuiltLaws.antt. Laws only.
// IEEE Std 1149.1-2001: test logic architecture, test data registers (design-specific); the laws are own.
//
// - It extends the netlist that is open to registers, has their gates, and its control ports are the original's, TCK and
//   TRST (`built_has_status`).
// - So it realises the wrapped chip with the registers, and is the original alone while the instruction in effect is
//   transparent, for each plan and registers that fit a netlist without gaps, with no other premise than that it is well
//   formed (`built_status_realises`, `built_status_is_alone`); and it finds home (`built_status_finds_home`).
// By the contract of its law functions.

ghost use Rattle.status_stitch.specs.BuiltLaws.{BuiltHasStatus, BuiltStatusFindsHome, BuiltStatusIsAlone, BuiltStatusRealises};

use crate::realised::{
    fitted_registers_are_own, status_finds_home, status_is_alone, status_realises,
};
use gate_parts::contained_part_has_flops;
use netlist_model::laws::{contained_parts, driven_net_follows_no_pin, driver_is_found};
use open_stitch::runs::{driven_wires_stay, pins_are_by_ports};
use status_build::cells::{registers_are_clocked, registers_drive_behind};
use status_build::control_ports::grown_has_controls;
use stitched_netlist::formed::stitched_is_formed;
use stitched_netlist::inside::built_in_surrounds;
use stitched_netlist::places::{extension_is_built_in, stitched_holds_its_parts};
use stitched_netlist::ranks::{stitched_has_controls, stitched_has_pins};

/// The netlist has what the law of netlists with registers asks for.
pub fn built_has_status()
    ensures { BuiltHasStatus }
{
    extension_is_built_in();
    built_in_surrounds();
    pins_are_by_ports();
    stitched_has_pins();
    driven_wires_stay();
    driver_is_found();
    driven_net_follows_no_pin();
    stitched_is_formed();
    stitched_has_controls();
    stitched_holds_its_parts();
    contained_parts();
    contained_part_has_flops();
    registers_are_clocked();
    registers_drive_behind();
    grown_has_controls();
}

/// So it realises the chip with the registers.
pub fn built_status_realises()
    ensures { BuiltStatusRealises }
{
    built_has_status();
    fitted_registers_are_own();
    status_realises();
}

/// And it is the original alone while the instruction in effect is transparent.
pub fn built_status_is_alone()
    ensures { BuiltStatusIsAlone }
{
    built_has_status();
    fitted_registers_are_own();
    status_is_alone();
}

/// And from whatever its test logic and the registers hold it finds home.
pub fn built_status_finds_home()
    ensures { BuiltStatusFindsHome }
{
    built_has_status();
    fitted_registers_are_own();
    status_finds_home();
}
