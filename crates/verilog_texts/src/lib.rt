// From the bytes of a text to the tree of the module that they spell, or to the trees of several modules.
// The contract of `read_module` cites specs/TextOutcome.antt and specs/TextFaults.antt, and `SpellsText`, `IsTree`
// of verilog_tree.
// IEEE Std 1364-2001: lexical conventions, modules and ports, gate-level modelling.
//
// Proved of `read_module`, and alike of `read_modules` with the trees of a text of several modules:
// - Where it gives a tree, the bytes spell that tree and no other, and the tree keeps the conditions of a tree
//   that can be spelled.
// - `BadWord` comes only where the bytes have no words, at the greatest place up to which some text of words
//   begins so.
// - `BadSyntax` comes only where the bytes have words and these spell no module; it names the least word with
//   which no module goes on, and its place.
// - Two laws: bytes spell at most one tree, and at most one list of trees.
// - Any other refusal is want of memory. Faults of the parts become faults of the whole with the same places.
// - `printing`: a tree to its canonical text, which spells the tree again.
// By the contract of `read_module`, `read_modules` and its law functions.
#![tactic(auto)]

mod fault;
mod laws;
mod module_text;
pub mod printing;

pub use fault::TextFault;
pub use laws::{bytes_spell_one_list_of_trees, bytes_spell_one_tree};
pub use module_text::{read_module, read_modules};
