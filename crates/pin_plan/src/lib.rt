// Fits a pin plan to a linked netlist: the boundary cells and the ports of the device, or the first fault.
// Contracts cite plan_fitting: specs/Fits.antt (what stands against a plan), Rows.antt (boundary cells) and
// Devices.antt (what fitting gives).
// IEEE Std 1149.1-2001: boundary-scan register, the annex on BSDL; VHDL-93, lexical elements. The order of faults
// and cells is own.
//
// - `fit` answers what fitting gives (`IsFitted`) only where each pin line names a bit and no fault stands:
//   exactly the plan's boundary cells, in their order and with their control cells, the netlist's own ports with their
//   pins, and the plan's names and codes. There are fewer than 2^32 cells. Hidden ports, which it wants to be the last
//   ones, are none of a plan's.
// - It answers a fault only where that is the first (`IsFault`), with its word; `OutOfMemory` says nothing.
// - One table of three-state gates is made in one pass over the cells, and one of names; pin lines are found by an
//   index, which the contracts tie to the first line of the definition, as control_cells finds control cells.
// By the contract of `fit`.
#![tactic(auto)]

// Keys of tables, and the bits of ports that pin lines name.
mod bits;
mod drivers;
mod hidden;
mod keys;
mod netlist_names;
mod pins;

// The faults by their kinds.
mod cells;
mod missing;
mod names;
mod prefix;
mod twice;

// What fitting gives.
mod codes;
mod copies;
mod plan_fit;
mod ports;
mod rows;

pub use plan_fit::fit;
