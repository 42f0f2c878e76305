// Trees of structural Verilog modules, what words spell them, and their canonical text.
// Contracts above cite `SpellsModule`, `SpellsText`, `IsTree` and `canonical` of specs/.
// IEEE Std 1364-2001: modules and ports, data types, gate-level modelling, continuous assignments.
//
// Proved: nothing by itself; the crates above prove their calls against these definitions.
//
// - `reading`: laws on reading a module from its words, and on the trees that some text spells.
#![tactic(auto)]

pub mod reading;
pub mod tree;

pub use tree::{
    Bit, Dir, Gate, GateKind, Instance, Item, Link, Module, Operand, Port, Range, Wire,
};
