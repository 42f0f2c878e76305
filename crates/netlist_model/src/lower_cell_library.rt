// What crates above name of cell_library.
pub use cell_library::{Bits, FlopKind, Instr, Kind, Library, Opcode, flop_of};
