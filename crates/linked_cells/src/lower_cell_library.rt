// What crates above name of cell_library.
pub use netlist_model::lower_cell_library::{FlopKind, Kind, Library, flop_of};
