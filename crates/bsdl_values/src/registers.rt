// From the words of a BSDL text to the device that they describe, with the registers of the design's own.
// The contract of `parse_extended` cites `SpellsExtended` and `IsExtendedFault` of bsdl_device.
// IEEE Std 1149.1-2001: the annex on BSDL (REGISTER_ACCESS); test data registers. Which fault comes first is own.
//
// - `parse_extended`: on success the words spell the device that is given, and no other.
// - Its `BsdlSyntax` says that the words spell none: they are no file's, and this is the word at which no file goes
//   on; or they are a file's, and this is the first string word of the first section whose strings hold what they
//   can't. The place is that word's offset, or the text's length.
// - Its `BsdlMeaning` says that the base breaks a rule, this kind first, told at the first word of the rule's section.
// - Its `BsdlExtra` says that the base breaks none, but the registers of the design's own do, told at the first word
//   of REGISTER_ACCESS.
// By the contract of `parse_extended`.

mod parse;
mod places;

pub use parse::parse_extended;
