// From the bytes of a BSDL text to the device that it describes, with the registers of the design's own.
// The contract of `read_extended` cites specs/RegisterTextsTextOutcome.antt and specs/RegisterTextsTextFaults.antt, and `SpellsExtendedText` and
// `IsExtended` of bsdl_device.
// IEEE Std 1149.1-2001: the annex on BSDL (REGISTER_ACCESS); test data registers. Which fault comes first is own.
//
// - `read_extended`: on success the bytes spell the device and no other, so do those of its canonical text, and the
//   device keeps `IsExtended`.
// - Its faults are those of `parse_extended`, besides `BsdlWord` with the place where the bytes can't go on.
// - A law: bytes spell at most one device.
// By the contract of `read_extended` and its law function.

mod fault;
mod laws;
mod reader;

pub use fault::ExtendedTextFault;
pub use laws::spells_one_extended;
pub use reader::read_extended;
