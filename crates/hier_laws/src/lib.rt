// Laws on the flat module of a hierarchy.
// IEEE Std 1364-2001: hierarchical structures; the flat module is own.
//
// - `solutions`: the valuations that solve a hierarchy are the settled ones of its flat netlist; the flat module is a
//   tree that some text spells.
// - `links`: a flat module that links.
#![tactic(auto)]

pub mod links;
pub mod solutions;
