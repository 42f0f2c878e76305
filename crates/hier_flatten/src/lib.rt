// Several modules in one text: the flat module of one of them, or the first fault.
// Contracts cite specs/Flattened.antt, over hier_model's Flat and Faults.
// IEEE Std 1364-2001: modules, module instances, hierarchical names; the flat module and its limits are own.
//
// - `parse_hier` gives the trees of the modules that words spell, and these alone; refused words have the fault
//   of the whole text.
// - `flatten` gives the flat module of the module of a name exactly where no fault stands; a refusal names the first
//   fault, or memory was wanted.
// By the contract of `parse_hier` and `flatten`. What no clause says: memory is wanted too where the items that stay
// have more than 2^26 operands and links; no prefix of names is kept for an occurrence, a name is joined where it is
// needed; what is left to do is a list, and nothing calls itself.
#![tactic(auto)]

mod copies;
mod flat;
mod flattened;
mod joins;
mod links;
mod name_checks;
mod names;
mod nets;
mod operands;

pub use flattened::{Hier, flatten, parse_hier};
