// Cuts a BSDL text into words as its bytes come.
// The contracts cite `words_of`, `Begins` and `IsPlace` (bsdl_lexicon, specs/Pieces.antt), and `Fed` (specs/Fed.antt).
// IEEE Std 1149.1-2001, the annex on BSDL; VHDL-93, lexical elements.
//
// - `BsdlCutter::new`, `feed`, `finish`: the words of `finish` are those of all the pieces joined, by the word
//   grammar, and the only ones; `end` is the text's length.
// - A refusal of `feed` or `finish`, but for want of memory, says that the text is none of the word grammar (for
//   `feed`: begins none), and carries the greatest place, up to the length, such that some text of the grammar
//   begins with the bytes before it.
// - After a refusal every later call answers the same one.
// - `cut` is the same on a whole text.
// - A law: bytes are one list of words at most.
// By the contract of `BsdlCutter`, `cut` and its law function.
#![tactic(auto)]

mod classes;
mod cutter;
mod fault;
mod integers;
mod laws;
mod machine;
mod mode;
mod whole;

pub use cutter::BsdlCutter;
pub use fault::BsdlWordFault;
pub use laws::texts_are_one_list_of_words;
pub use whole::cut;
