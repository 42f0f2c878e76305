// What crates above name of texts.
pub use verilog_lexicon::lower_texts::OutOfMemory;
