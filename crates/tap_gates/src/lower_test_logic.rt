// What crates above name of test_logic.
pub use test_logic::{InstrNets, TapNets};
