// The canonical text of a device.
// Contracts cite `canonical_device`, `IsDevice` and `SpellsText` of bsdl_device's specs/.
// IEEE Std 1149.1-2001: the annex on BSDL; the layout is own.
//
// - `print_device` gives exactly the canonical text of the device, for every value of the type `Device`, or
//   answers want of memory. Where the device keeps `IsDevice`, the text spells it; just those devices are spelled
//   by some text.
// - Its parts stand open to a text that has more between them: the head, the instructions, the identification
//   register, register access and the boundary register, each of which adds exactly the part of that name.
// - `registers`: a device with data registers of a design's own to its canonical text.
// By the contract of `print_device` and of its parts.
#![tactic(auto)]

pub mod boundary;
pub mod head;
pub mod instructions;
mod print;
pub mod registers;
pub mod text;

pub use print::print_device;
