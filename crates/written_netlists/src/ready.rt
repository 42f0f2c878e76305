// A netlist that a plan fits is ready for its test logic. Its functions are laws; specs/ReadyLaws.antt has their statements.
// IEEE Std 1149.1-2001: boundary-scan register.
//
// By the contract of its law functions.

mod laws;

pub use laws::{fitted_are_few, fitted_can_stand_behind};
