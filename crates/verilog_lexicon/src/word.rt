use crate::reserved::Reserved;
use crate::symbol::Symbol;
use texts::Text;

/// A word of a text (IEEE Std 1364-2001, lexical conventions).
#[derive(Drop)]
pub enum Word {
    /// A simple name that isn't reserved, or an escaped name without its backslash and blank: the same bytes
    /// are the same name.
    Name(Text),
    Reserved(Reserved),
    /// A decimal number of 1 to 9 digits, by its value.
    Number(u32),
    /// A one-bit constant.
    Const(bool),
    Symbol(Symbol),
}

/// A word with its place in the text and its length, in bytes; an escaped name's has the backslash and the blank.
#[derive(Drop)]
pub struct Spanned {
    pub word: Word,
    pub at: u64,
    pub len: u32,
}
