// What crates above name of cell_library.
pub use linked_cells::lower_cell_library::Kind;
