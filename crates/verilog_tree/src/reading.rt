// How a module is read from its words: reading functions on lists, the laws that tie them to the words of written
// modules, and one on the trees that texts spell. The parser's contracts cite `source_at` and the laws of specs/.
// IEEE Std 1364-2001: modules and ports, gate-level modelling, continuous assignments.
//
// - The words of each written module that keeps the rules are read as that module, with no word left.
// - What is read is always such a module, and the words are its own.
// - Two different such modules never have the same words.
// - Where reading finds a fault, the words are those of no module.
// - It stops at the least word with which no module's words go on: some module's words begin with all the words
//   before it, and none begins with more.
// - `dir_of` and `item_head_of` answer which direction, and which item, a key word begins.
// - A tree that any text spells keeps the conditions of a tree that can be spelled: names of 1 to 255 printing
//   bytes, numbers of at most nine digits, as many inputs as each gate takes, no wire that is a port's net.
// - So it is of texts of several modules, one after another: what is read, where a fault stands, the conditions.
// By the contract of `dir_of`, `item_head_of` and its law functions.

pub mod heads;
pub mod laws;

pub use heads::{ItemHead, dir_of, item_head_of};
pub use laws::{
    faults_at_fault_word, faults_at_text_fault_word, faults_spell_nothing, reads_each_source,
    reads_each_text, reads_only_sources, reads_only_texts, spelled_modules_keep_the_conditions,
    spelled_trees_keep_the_conditions, spells_one_source,
};
