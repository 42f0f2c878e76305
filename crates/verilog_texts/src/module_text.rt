ghost use Rattle.std.specs.Prelude.{IfErr, IfOk};
ghost use Rattle.verilog_texts.specs.TextOutcome.{AreReadAs, AreSpelled, HasWords, IsReadAs, Spelled};
ghost use Rattle.verilog_texts.specs.TextFaults.{IsModulesFault, IsModulesTextFault, IsTextFault, IsModuleFault, IsWordFault};

use crate::fault::TextFault;
use crate::laws::{bytes_spell_one_list_of_trees, bytes_spell_one_tree};
use std::alloc::Global;
use texts::{Row, Text};
use verilog_lexicon::Words;
use verilog_modules::{parse_module, parse_modules};
use verilog_tree::Module;
use verilog_tree::reading::{
    spelled_modules_keep_the_conditions, spelled_trees_keep_the_conditions,
};
use verilog_words::Cutter;

// The words of a text, which is let go.
fn cut(alloc: Global, text: Text) -> Result<Words, TextFault>
    ensures words { IfOk result (HasWords text) }
    ensures fault { IfErr result (IsWordFault text) }
{
    let mut cutter = Cutter::with_room(alloc, text.len());
    cutter.feed(text.as_bytes())?;
    Ok(cutter.finish()?)
}

// The tree of a module, by its words, which are let go.
fn parse(alloc: Global, words: Words) -> Result<Module, TextFault>
    ensures tree { IfOk result (Spelled words) }
    ensures fault { IfErr result (IsModuleFault words) }
{
    Ok(parse_module(alloc, &words)?)
}

/// The tree of the module that a text spells. The text is let go before the tree is made.
pub fn read_module(alloc: Global, text: Text) -> Result<Module, TextFault>
    ensures read { IfOk result (IsReadAs text) }
    ensures fault { IfErr result (IsTextFault text) }
{
    // Laws that the proof uses.
    bytes_spell_one_tree();
    spelled_trees_keep_the_conditions();
    let words = cut(alloc, text)?;
    let tree = parse(alloc, words)?;
    Ok(tree)
}

// The trees of modules, by their words, which are let go.
fn parse_all(alloc: Global, words: Words) -> Result<Row<Module>, TextFault>
    ensures trees { IfOk result (AreSpelled words) }
    ensures fault { IfErr result (IsModulesFault words) }
{
    Ok(parse_modules(alloc, &words)?)
}

/// The trees of the modules that a text spells, one after another. The text is let go before the trees are made.
pub fn read_modules(alloc: Global, text: Text) -> Result<Row<Module>, TextFault>
    ensures read { IfOk result (AreReadAs text) }
    ensures fault { IfErr result (IsModulesTextFault text) }
{
    // Laws that the proof uses.
    bytes_spell_one_list_of_trees();
    spelled_modules_keep_the_conditions();
    let words = cut(alloc, text)?;
    let trees = parse_all(alloc, words)?;
    Ok(trees)
}
