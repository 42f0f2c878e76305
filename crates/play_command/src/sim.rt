// The command that simulates: reads a netlist and events, and a library of cells if there is one, and puts what the
// events' run on the netlist puts.
// Its task stands in specs/SimTasks.antt, over specs/Simulations.antt and specs/SimFaults.antt.
// IEEE Std 1364-2001 for the netlist; the texts of events and what a run puts are own.
//
// - At its end the text of the events' run was put, and the status tells whether an expectation isn't met; a fault
//   stands in the texts, or a front of that text was put.
// By the contract of `simulate` and its law function.

mod laws;
mod plays;
mod simulation;

pub use laws::simulation_faults_stand_apart;
pub use simulation::simulate;
