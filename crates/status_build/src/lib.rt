// Data registers of a design's own, built into a netlist that is open to them.
// IEEE Std 1149.1-2001: test data registers; the gates and their order are own.
//
// - `build`: `build_registers`, and when a netlist is open to them.
// - `cells`, `formed`, `order`, `places`: laws: what each cell of registers is; a netlist stays well formed where they
//   are appended, and each is named; a gate that reads a flip-flop may read what the registers show; what the registers
//   stand on is there.
// - `reconnected`, `control_ports`: laws: where a gate may read another net; which ports control flip-flops where a
//   netlist grows.
#![tactic(auto)]

pub mod build;
pub mod cells;
pub mod control_ports;
pub mod formed;
pub mod order;
pub mod places;
pub mod reconnected;
