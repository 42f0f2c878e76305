// What crates above name of texts.
pub use cell_library::lower_texts::OutOfMemory;
