// What crates above name of texts.
pub use word_cutter::lower_texts::Row;
