// Builds the test logic of a plan and data registers of a design's own into the netlist that they fit.
// Contracts cite specs/Stitched.antt for the netlist, and status_room's specs/Ready.antt for how much room.
// IEEE Std 1149.1-2001: test logic architecture, test data registers; the order of gates is own.
//
// - `stitch_status` leaves a linked netlist with the ports, the nets and the live cells of `stitched_status`; names and
//   the module's name stay. It can't refuse after `prepare_status` of status_room, and takes no memory.
// - `realised`, `built`: laws: what was fitted may stand beside the device, and every netlist that is open to registers
//   and has their gates realises the chip with them, is the core alone, and finds home; so does the netlist with both
//   built in, cell by cell.
// By the contract of `status_netlist` and `stitch_status`.
#![tactic(auto)]

pub mod built;
pub mod lower_scan_stitch;
pub mod lower_status_build;
pub mod lower_status_room;
mod parts;
pub mod realised;
mod whole;

pub use parts::status_netlist;
pub use whole::stitch_status;
