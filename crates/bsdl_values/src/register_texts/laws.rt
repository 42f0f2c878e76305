ghost use Rattle.bsdl_values.specs.RegisterTextsLaws.{SpellsOneExtended};

use bsdl_contents::strings_hold_one_contents;
use bsdl_device::reading::spells_one_file;
use bsdl_words::texts_are_one_list_of_words;

/// Two different devices with registers of their own never have the same text.
pub fn spells_one_extended()
    ensures { SpellsOneExtended }
{
    spells_one_file();
    strings_hold_one_contents();
    texts_are_one_list_of_words();
}
