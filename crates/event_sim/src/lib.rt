// A linked netlist at work, where an event evaluates only the gates that have an operand on a net that changed.
// Contracts cite specs/Sims.antt and specs/Shown.antt, which stand on the runs of netlist_model.
// IEEE Std 1364-2001, the chapters on gate level modelling and on scheduling; zero delay, runs and the count are own.
//
// - `EventSim::new`, where Ok, has taken all memory that it ever takes; the others can't refuse.
// - `start` begins a run at these pins and contents of flip-flops; `apply` makes the step by a legal event, no other;
//   `reading` tells what a port bit reads at that moment; `is_legal` is true exactly for legal events.
// - `apply` counts each evaluation of a gate, and makes at most as many as gates have an operand on a net whose value
//   differs before and after the event: none where nothing changes.
// - `apply` notes each shown bit, which is one of an output or inout port, that reads another value than before, and
//   keeps what was noted; `take_changed` takes the least in the order of the ports, and answers None exactly where none
//   is left.
// By the contract of the calls.
#![tactic(auto)]

mod changes;
mod events;
mod places;
mod shown;
mod sim;

pub use sim::EventSim;
