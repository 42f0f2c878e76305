// From the words of structural Verilog to trees: of one module, or of several one after another.
// The contract of `parse_module` cites `SpellsModule`, the trees that words spell; that of `parse_modules`
// specs/Texts.antt.
// IEEE Std 1364-2001: modules and ports, data types, gate-level modelling, continuous assignments.
//
// Proved of `parse_module`, and alike of `parse_modules` with the trees of a text of modules:
// - Where it gives a tree, the words spell that tree, and no other.
// - `BadSyntax` comes only where the words spell no tree; it names the least word with which no module goes on, by
//   its number, and the place of that word in the text, or the text's length where the end comes too soon.
// - Any other refusal is want of memory.
// - Two laws: words spell one module at most, and one list of modules.
// By the contract of `parse_module`, `parse_modules` and its law functions.
#![tactic(auto)]

mod cells;
mod declarations;
mod fault;
mod header;
mod items;
mod nets;
mod parse;
mod parts;

pub use fault::SyntaxFault;
pub use parse::{parse_module, parse_modules, words_spell_one_list, words_spell_one_module};
