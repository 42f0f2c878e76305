// From the words, or the bytes, of a BSDL text to the device that they describe.
// The contracts of `parse_device` and `read_device` cite specs/DeviceFaults.antt and specs/TextOutcome.antt, and
// `SpellsDevice`, `SpellsText` of bsdl_device.
// IEEE Std 1149.1-2001: the annex on BSDL. Which fault comes first is own.
//
// - `parse_device`: on success the words spell the device that is given, and no other.
// - Its `BsdlSyntax` says that the words spell no device: they are no file's, and this is the word at which no
//   file goes on; or they are a file's, and this is the first string word of the first section whose strings hold
//   what they can't. The place is that word's offset, or the text's length.
// - Its `BsdlMeaning` says that the file and its contents break a rule, this kind first, told at the first word of
//   the rule's section.
// - Two laws: bytes spell at most one device; and the canonical text of a device that keeps `IsDevice` spells that
//   device and no other, so what is printed is read back.
// - `read_device`: the same from the bytes of a text, besides `BsdlWord` with the place where the bytes can't go
//   on. On success the bytes spell the device and no other, so do those of its canonical text, and the device
//   keeps `IsDevice`.
// - `register_texts`: bytes to the one device that they describe, with data registers of a design's own.
// - `registers`: words to the one device that they describe, with such registers.
// By the contract of `parse_device`, `read_device` and its law functions.
#![tactic(auto)]

mod device_text;
mod laws;
mod parse;
mod places;
pub mod register_texts;
pub mod registers;

pub use device_text::read_device;
pub use laws::{devices_are_read_back, spells_one_device};
pub use parse::parse_device;
