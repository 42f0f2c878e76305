// The words of structural Verilog: their kinds, their spelling, and lists of them as a parser reads them.
// The contracts cite `WordText` and `front` (specs/Words.antt), and `reserved_of` and `spelling_of`
// (specs/Keywords.antt); specs/Pieces.antt is the word grammar. IEEE Std 1364-2001: lexical conventions, and the
// annex on key words.
//
// - `reserved_of` gives the first key word of the definitions' list that is spelled by these bytes;
//   `Reserved::spelling` and `Symbol::byte` give the bytes of the tables.
// - A law: the list has each reserved word for its own bytes, and for no others.
// - `is_letter`, `is_name_byte`, `is_simple_name` are their definitions.
// - `Words` is a list of words, each with its place and length in the text, and the text's length: each push adds
//   one word at the end (a simple name that is a key word is added as that), and where memory is refused nothing
//   has changed.
// - The looks of `Words` (`len`, `end`, `place_of`, `reserved_at`, `number_at`, `constant_at`, `symbol_at`,
//   `name_at`) answer what the list holds.
// - `WordReader` is the words that are left: a look doesn't change it, and a take takes one word exactly where it
//   is of the kind that was asked for.
// By the contract of `reserved_of`, `Reserved::spelling`, `Symbol::byte`, `is_letter`, `is_name_byte`,
// `is_simple_name`, `Words`, `WordReader` and its law function.
#![tactic(auto)]

pub mod keywords;
mod laws;
pub mod lower_texts;
pub mod reader;
pub mod reserved;
pub mod spelling;
pub mod symbol;
pub mod word;
pub mod words;

pub use laws::key_words_are_found_by_their_bytes;
pub use reader::WordReader;
pub use reserved::Reserved;
pub use symbol::Symbol;
pub use word::{Spanned, Word};
pub use words::Words;
