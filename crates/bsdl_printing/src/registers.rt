// The canonical text of a device with registers of its own.
// The contract of `print_extended` cites `canonical_extended` of bsdl_device's specs/.
// IEEE Std 1149.1-2001: the annex on BSDL; the layout is own.
//
// - `print_extended` gives exactly the canonical text of the device and its registers, for every value of the type
//   `Extended`, or answers want of memory.
// By the contract of `print_extended`.

mod print;
mod registers;

pub use print::print_extended;
