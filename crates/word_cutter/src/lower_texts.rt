// What crates above name of texts.
pub use texts::{OutOfMemory, Row, Text};
