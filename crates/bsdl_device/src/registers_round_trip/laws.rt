ghost use Rattle.bsdl_device.specs.RegistersRoundTripLaws.{CanonicalExtendedSpells, SpelledExtendedKeep};

/// Each device with registers of its own that some text spells keeps the conditions on such devices.
pub fn spelled_extended_keep_the_conditions()
    ensures { SpelledExtendedKeep }
{}

/// Each device with registers of its own that keeps the conditions is spelled by its canonical text.
pub fn canonical_extended_texts_spell()
    ensures { CanonicalExtendedSpells }
{}
