// Room and names for a plan's test logic and data registers of a design's own, before anything is built in. Contracts
// cite specs/Ready.antt for how much room, specs/Prepared.antt for what is left.
// Own.
//
// - `prepare_status` is `prepare` of scan_stitch with 64 + 48 r + 4 b cells and nets more, for r registers of b bits
//   together, and refuses as that does. What the netlist holds stays, also after a refusal.
// - `ready`: laws: registers that were fitted can be built in, and their opcodes are none of the plan's.
// By the contract of `status_room` and `prepare_status`.
#![tactic(auto)]

pub mod lower_scan_stitch;
mod needed_room;
pub mod ready;

pub use needed_room::{prepare_status, status_room};
