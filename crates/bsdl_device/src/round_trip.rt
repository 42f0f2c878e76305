// The devices that texts spell are those that keep the conditions on devices, and each is spelled by
// its canonical text.
// The contracts of the laws cite specs/RoundTripLaws.antt, over `IsDevice`, `SpellsText` and `canonical_device` of bsdl_device.
// IEEE Std 1149.1-2001: the annex on BSDL; the layout is own.
//
// - `spelled_devices_keep_the_conditions`: each device that some bytes spell keeps `IsDevice`.
// - `canonical_texts_spell_their_devices`: each device that keeps `IsDevice` is spelled by its canonical text.
// - `canonical_reads_back`: for each device that some bytes spell, the bytes of its canonical text spell that
//   device.
// By the contract of its law functions.

pub mod laws;

pub use laws::{
    canonical_reads_back, canonical_texts_spell_their_devices, spelled_devices_keep_the_conditions,
};
