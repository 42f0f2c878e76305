// Devices with read-only test data registers of the design's own: what a BSDL text says of them, beside what it
// says of the device.
// Contracts above cite `SpellsExtended`, `IsExtended`, `own_registers_fail`, `IsExtendedFault` and
// `canonical_extended` of specs/.
// IEEE Std 1149.1-2001: the annex on BSDL (REGISTER_ACCESS); test data registers. The limits and the layout are own.
//
// - The base of such a device is that of the text without the entries of these registers and without their
//   instructions' opcodes: all rules of bsdl_device are asked of it.
// - No calls: definitions, and types.

mod fault;
mod values;

pub use fault::ExtendedFault;
pub use values::{Extended, RegisterEntry, TestRegister};
