// The valuations that solve a hierarchy, and the settled ones of its flat netlist: laws that they are the same.
// The laws are specs/SolutionsLaws.antt, and specs/Solves.antt says which valuations solve a hierarchy.
// IEEE Std 1364-2001: hierarchical structures, ports and port connections; values are those of one flat netlist.
//
// - Each equation of the hierarchy is met exactly where that of its cell in the flat netlist is.
// - A valuation of the nets of the flat netlist is settled exactly where, read at occurrence, net and bit, it solves
//   the hierarchy (`settled_where_solved`).
// - What that needs of the flat module holds where neither flattening nor linking finds a fault (`entries_own_bits`).
// - Each valuation of the flat netlist can be read so (`some_reading`).
// - Where no fault stands the flat module keeps the conditions of a tree, so that some text spells it
//   (`flat_modules_keep_the_conditions`).
// By the contract of its law functions.

pub mod laws;
mod readings;
mod trees;

pub use laws::{
    entries_meet_as_cells, entries_own_bits, places_resolve, settled_cells_meet, settled_meets,
    settled_where_solved, solved_cells_meet, stays_own_bits,
};
pub use readings::some_reading;
pub use trees::flat_modules_keep_the_conditions;
