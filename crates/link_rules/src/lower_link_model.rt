// What crates above name of link_model.
pub use link_model::{ItemCell, NetBit};
