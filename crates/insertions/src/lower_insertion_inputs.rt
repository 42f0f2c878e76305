// What crates above name of insertion_inputs.
pub use insertion_inputs::{InsertFault, link_text};
