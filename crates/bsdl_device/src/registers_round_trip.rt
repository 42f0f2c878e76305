// The devices with registers of their own that texts spell are those that keep the conditions, and each is spelled by
// its canonical text.
// The contracts of the laws cite specs/RegistersRoundTripLaws.antt, over `IsExtended`, `SpellsExtendedText` and `canonical_extended` of
// bsdl_device.
// IEEE Std 1149.1-2001: the annex on BSDL; the layout is own.
//
// - `spelled_extended_keep_the_conditions`: each device that some bytes spell keeps `IsExtended`.
// - `canonical_extended_texts_spell`: each device that keeps `IsExtended` is spelled by its canonical text.
// By the contract of its law functions.

pub mod laws;

pub use laws::{canonical_extended_texts_spell, spelled_extended_keep_the_conditions};
