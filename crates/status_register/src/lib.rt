// Data registers of a design's own that capture wires of the core, each selected by an instruction of the design's own:
// from the text that asks for them to the netlist that has them.
// Contracts cite specs/Devices.antt for the device, status_stitch's for the netlist, the room and what is needed, and
// status_gates' specs/Realises.antt for how the netlist behaves.
// IEEE Std 1149.1-2001: design-specific test data registers, instruction register; the room is own.
//
// - `read_status` and `fit_status` are handed on: from a text to registers, and from registers to a plan and a netlist.
// - `extended_of` gives the device of what was fitted, with the registers.
// - `prepare_status` is handed on: it makes the room, or tells the limit that it would pass.
// - `stitch_status` leaves a linked netlist with the ports, the nets and the live cells of `stitched_status`; names and
//   the module's name stay. It can't refuse after `prepare_status`, and takes no memory. Through any legal events it
//   behaves as the netlist before, wrapped in the test logic of the device with these registers (`RealisesStatus`), and
//   as the netlist before alone while a transparent instruction is in effect, where each register's counts as BYPASS
//   (`Alone`). It takes events where it should, and its control ports are the netlist's, TCK and TRST.
// - A law: some text spells the device with these registers (`registers_make_devices`).
// - `written`: laws: how the netlist behaves that is written with such registers.
// By the contract of `extended_of`, `stitch_status` and a law function.
#![tactic(auto)]

mod device;
mod laws;
pub mod lower_status_room;
mod whole;
pub mod written;

pub use device::extended_of;
pub use laws::registers_make_devices;
pub use whole::stitch_status;
