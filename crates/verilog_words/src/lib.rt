// Cuts a text into Verilog words as its bytes come.
// The contracts cite `words_of`, `Begins` and `IsPlace` (verilog_lexicon, specs/Pieces.antt), and `Fed`
// (specs/Fed.antt).
// IEEE Std 1364-2001: lexical conventions, and four compiler directives.
//
// - `Cutter::feed`: where it is `Ok`, some text of the word grammar begins with all the bytes fed so far.
//   `BadWord` comes only where no such text does, and its place is the greatest up to which some text of the
//   grammar begins so.
// - `Cutter::finish`: the words of all pieces joined, however they were cut, and no other list of words is one of
//   these bytes; the length is that of the text. `BadWord` comes only where the bytes have no words, with the
//   place that `feed` has.
// - A law: bytes have at most one list of words.
// - After a refusal every later call answers that same refusal.
// - So comments, attributes, the four directives, names of at most 255 bytes, escaped names, numbers of 1 to 9
//   digits and one-bit constants are read exactly as the grammar has them.
// By the contract of `Cutter::feed`, `Cutter::finish` and its law function.
#![tactic(auto)]

mod classes;
mod cutter;
mod fault;
mod laws;
mod machine;
mod mode;

pub use cutter::Cutter;
pub use fault::WordFault;
pub use laws::bytes_have_one_list_of_words;
