// The command that demonstrates: makes the netlist of a number, builds the test logic of the demonstration plan into
// it, and writes what comes of it.
// Its task stands in specs/Demonstrations.antt, which stands on insertions' specs/Insertions.antt.
// Own: no chapter of a standard speaks of it.
//
// By the contract of `make`.

mod command;
mod demo_texts;
mod laws;

pub use command::Demo;
