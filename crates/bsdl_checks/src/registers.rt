// The registers of a design's own: the opcodes of their instructions, the rules on them, and what a device has of them.
// Contracts cite specs/Rules.antt and specs/Spelled.antt of bsdl_device.
// IEEE Std 1149.1-2001: the annex on BSDL (register access); instruction register; test data registers.
// The limits are own.
//
// - `part_contents` takes the opcodes of the design's own instructions out of a file's contents.
// - `registers_fail` says yes exactly where a rule on these registers is broken; `names_register` and
//   `names_some_instruction` where a name is one of the profile's.
// - `registers_of` gives the registers of the entries that have an opcode.
// By the contract of these calls.

mod opcodes;
mod registers;
mod rules;

pub use opcodes::{PartedContents, part_contents};
pub use registers::registers_of;
pub use rules::{names_register, names_some_instruction, registers_fail};
