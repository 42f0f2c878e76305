// What crates above name of instruction_gates.
pub use instruction_gates::register::registers_fit;
