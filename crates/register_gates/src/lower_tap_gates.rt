// What crates above name of tap_gates.
pub use tap_gates::step_is_the_machines;
