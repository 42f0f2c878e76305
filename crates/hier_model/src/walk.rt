// The hierarchy of a module in flat order, gone through by a list of what is left to do.
// Contracts cite specs/Visits.antt: the flat order as a recursion over the hierarchy. specs/Walks.antt
// ties the list to it.
// IEEE Std 1364-2001: modules, module instances, hierarchical names; the flat order is own.
//
// - `ModuleTable` finds the first module of a name, and where it stands.
// - `Walk` gives what comes next in flat order, and the occurrence where it stands: a new walk has the whole order
//   left, and each call of `next` takes the first that is left, or tells that nothing is.
// - It needs as many levels as the hierarchy has.
// By the contract of `ModuleTable` and `Walk`. What no clause says: a name is found in one look into a table, and only
// the path and the list of what is left grow with the levels.

mod modules;
mod walk;

pub use modules::ModuleTable;
pub use walk::{Frame, Step, Turn, Walk};
