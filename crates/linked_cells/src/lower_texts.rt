// What crates above name of texts.
pub use netlist_model::lower_texts::OutOfMemory;
