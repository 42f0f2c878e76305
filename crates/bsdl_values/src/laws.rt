ghost use Rattle.bsdl_values.specs.Laws.{SpellsOneDevice, DevicesAreReadBack};

use bsdl_contents::strings_hold_one_contents;
use bsdl_device::reading::spells_one_file;
use bsdl_device::round_trip::canonical_texts_spell_their_devices;
use bsdl_words::texts_are_one_list_of_words;

/// Two different devices never have the same text.
pub fn spells_one_device()
    ensures { SpellsOneDevice }
{
    spells_one_file();
    strings_hold_one_contents();
    texts_are_one_list_of_words();
}

/// Each device that keeps the conditions is the one that its canonical text spells.
pub fn devices_are_read_back()
    ensures { DevicesAreReadBack }
{
    spells_one_file();
    strings_hold_one_contents();
    texts_are_one_list_of_words();
    canonical_texts_spell_their_devices();
}
