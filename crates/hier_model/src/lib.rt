// What the modules of a text come to as one flat module, and when they can't be made flat: definitions.
// Contracts above cite specs/Flat.antt and specs/Faults.antt. Nothing runs here but the fault's type.
// IEEE Std 1364-2001: hierarchical structures and names, ports and port connections; the flat module, its order
// and limits are own.
//
// - `walk`: the hierarchy of a module in flat order: as a recursion over its levels, and gone through by a list of
//   what is left to do; the first module of a name.
#![tactic(auto)]

mod fault;
pub mod walk;

pub use fault::{HierFault, HierWhat};
