// Laws on the netlist with the test logic built in, as it is written.
// IEEE Std 1149.1-2001: test logic architecture; IEEE Std 1364-2001: modules and ports, hierarchical names.
//
// - `ready`: what was fitted can stand behind its boundary cells.
// - `names`, `inserted`: its names and its room; the linked netlist that holds it.
// - `modules`: the module that it is written as.
// - `runs`: how the written netlist behaves, from a power-up with TRST low and from home on.
#![tactic(auto)]

pub mod inserted;
pub mod lower_core_sides;
pub mod modules;
pub mod names;
pub mod ready;
pub mod runs;
