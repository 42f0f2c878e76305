// Builds the test logic of a plan into the netlist that it fits.
// Contracts cite stitched_netlist's specs/Stitched.antt for the netlist, and plan_fitting's
// specs/Devices.antt for the device.
// IEEE Std 1149.1-2001: test logic architecture, boundary-scan register.
//
// - `device_of_fit` gives the device of what was fitted.
// - `room` is 410 cells and nets, 64 for each bit of the instruction register and 24 for each boundary cell.
//   `prepare` reserves them, and a port bit for each port of the device beside the netlist's, and enters the names
//   of the test access port; it answers `TooMany` just where that passes a limit. What the netlist holds stays,
//   also after a refusal.
// - `stitch` leaves a linked netlist with the ports, the nets and the live cells of `stitched`; names and the
//   module's name stay. Through any legal events it behaves as the netlist before, wrapped in the test logic of
//   the device of what was fitted (`Realises`), and as the netlist before alone while a transparent instruction is
//   in effect (`Alone`); from whatever its test logic holds it finds home, and is alone from there on while a
//   transparent instruction is in effect (`FindsHome`, `AloneFromHome`). It can't refuse after `prepare`, and
//   takes no memory.
// - A law: the bits of what was fitted are bits of its own ports, and of the netlist's.
// - A law: what was fitted to a netlist without gaps can be built into it (`fitted_can_be_stitched`).
// By the contract of `device_of_fit`, `room`, `prepare`, `tap_names`, `stitch`, `stitch_netlist` and two law functions.
#![tactic(auto)]

mod device;
mod laws;
pub mod lower_written_netlists;
mod names;
mod needed_room;
mod parts;
mod whole;

pub use device::device_of_fit;
pub use laws::{fitted_bits_are_there, fitted_can_be_stitched};
pub use names::tap_names;
pub use needed_room::{prepare, room};
pub use parts::{Built, stitch_netlist};
pub use whole::stitch;
