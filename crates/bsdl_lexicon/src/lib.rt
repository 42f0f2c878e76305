// The words of a BSDL text: their kinds, names and reserved words, and lists of words as a parser reads them.
// The contracts cite `same_name` and `is_reserved` (specs/Names.antt, specs/Reserved.antt), `plain` and `front`
// (specs/Words.antt); specs/Pieces.antt is the word grammar. IEEE Std 1149.1-2001, the annex on BSDL; VHDL-93,
// lexical elements.
//
// - `same_name` says yes exactly where two names have the same bytes, but for the case of ASCII letters; `lower`
//   is the byte in lower case.
// - `is_reserved` says yes exactly where the name is one of the listed reserved words, in any case of letters.
// - `BsdlToken`'s questions (`name`, `is_key`, `integer`, `real`, `quoted`, `is_symbol`, `is_becomes`) and
//   `BsdlSymbol::byte` answer exactly what the word is; `name` has no reserved word.
// - `BsdlWords::len` is the count of words, and `place_of` the offset of a word, or the text's length where there
//   is none.
// - `BsdlReader` is the list of words that are left: each `peek_…` sees the first, each `take_…` takes it exactly
//   where it is what was asked for, and leaves the rest as it was.
// By the contract of `same_name`, `lower`, `is_reserved`, `BsdlToken`, `BsdlSymbol`, `BsdlWords` and `BsdlReader`.
#![tactic(auto)]

pub mod name_key;
pub mod names;
pub mod reader;
pub mod reserved;
pub mod symbol;
pub mod token;
pub mod words;

pub use name_key::NameKey;
pub use names::same_name;
pub use reader::BsdlReader;
pub use reserved::is_reserved;
pub use symbol::BsdlSymbol;
pub use token::{BsdlSpanned, BsdlToken};
pub use words::BsdlWords;
