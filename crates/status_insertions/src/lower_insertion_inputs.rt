// What crates above name of insertion_inputs.
pub use insertions::lower_insertion_inputs::InsertFault;
