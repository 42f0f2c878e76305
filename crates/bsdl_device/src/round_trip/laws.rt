ghost use Rattle.bsdl_device.specs.RoundTripLaws.{CanonicalReadsBack, SpelledDevicesKeep, CanonicalSpells};

/// The canonical text of each device that some text spells spells that device.
pub fn canonical_reads_back()
    ensures { CanonicalReadsBack }
{}

/// Each device that some text spells keeps the conditions on devices.
pub fn spelled_devices_keep_the_conditions()
    ensures { SpelledDevicesKeep }
{}

/// Each device that keeps the conditions is spelled by its canonical text.
pub fn canonical_texts_spell_their_devices()
    ensures { CanonicalSpells }
{}
