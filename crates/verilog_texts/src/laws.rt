ghost use Rattle.verilog_texts.specs.Laws.{BytesSpellOneList, BytesSpellOneTree};

use verilog_modules::{words_spell_one_list, words_spell_one_module};
use verilog_words::bytes_have_one_list_of_words;

/// A law: bytes spell at most one tree.
pub fn bytes_spell_one_tree()
    ensures { BytesSpellOneTree }
{
    bytes_have_one_list_of_words();
    words_spell_one_module();
}

/// A law: bytes spell at most one list of trees.
pub fn bytes_spell_one_list_of_trees()
    ensures { BytesSpellOneList }
{
    bytes_have_one_list_of_words();
    words_spell_one_list();
}
