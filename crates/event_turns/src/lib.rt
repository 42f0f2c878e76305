// The turns of an event, over flat tables of a netlist.
// Contracts cite specs/Circuits.antt, which stands on the laws of events and on the runs of netlist_model.
// IEEE Std 1364-2001, the chapters on gate level modelling and on scheduling; zero delay and the order
// of turns are own.
//
// - `Circuit::new`, where Ok, has the tables of a well-formed netlist with an order of its cells; it takes all memory.
// - `step` steps by a legal event from rest to rest: exactly the step of the definition, with at most as many counted
//   evaluations as gates have an operand on a net whose value differs before and after. It logs the net of the event
//   and each net of which the value, or what a three-state gate gives it, is another.
// - `keep_drives` gives rest at a start; `reading` tells what a port bit reads at rest, and evaluates nothing.
// - `step`, `keep_drives` and `reading` take no memory and can't refuse.
// By the contract of the calls.
#![tactic(auto)]

mod circuit;
mod drives;
mod gates;
mod pairs;
mod readers;
mod readings;
mod rows;
mod tables;
mod turns;
mod values;

pub use circuit::{Circuit, Gate, Row};
pub use drives::keep_drives;
pub use readings::reading;
pub use turns::step;
