// What crates above name of insertions.
pub use insertions::{Inserted, insert_texts};
