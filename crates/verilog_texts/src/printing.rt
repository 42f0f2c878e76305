// The canonical text of a structural Verilog module.
// Contracts cite `canonical`, `IsTree` and `SpellsText` of verilog_tree's specs/.
// IEEE Std 1364-2001: lexical conventions, modules and ports, gate-level modelling, continuous assignments.
//
// Proved, of `print_module`, and the second also as a law of every tree:
// - The text that it gives is the canonical text of the tree, to the byte.
// - Where the tree keeps the conditions of a tree that can be spelled (names of 1 to 255 printing bytes, numbers
//   of at most nine digits, as many inputs as each gate takes, no wire that is a port's net), the text that it
//   gives spells this tree.
// - A tree that any text spells keeps these conditions.
// By the contract of `print_module` and its law function.

mod items;
mod laws;
mod names;
mod ports;
mod print;

pub use laws::canonical_texts_spell_their_trees;
pub use print::print_module;
