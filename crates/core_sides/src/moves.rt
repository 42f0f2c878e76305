// Puts the core behind its boundary cells: its nets move to the core's side of them, and its three-state drivers take
// their operands from them. The contract cites stitched_netlist's specs/Sides.antt for a cell of the core, and
// specs/Ready.antt for what is needed.
// IEEE Std 1149.1-2001: boundary-scan register.
//
// - `stand_behind` leaves each cell of the core as `core_cell` says: inner readers and drivers of a pin's net take
//   the net on the core's side, and a three-state driver takes its operands from its cells. Ports, nets and room
//   stay. It takes no memory.
// By the contract of `stand_behind`.

mod row_moves;

pub use row_moves::stand_behind;
