ghost use Rattle.std.specs.Prelude.{◌≡◌};
ghost use Rattle.std.specs.Option.{is_some, option_copied};

use crate::names::same_name;
use crate::reserved::is_reserved;
use crate::symbol::BsdlSymbol;
use texts::Text;

/// A word of a BSDL text.
#[derive(Drop)]
pub enum BsdlToken {
    /// An identifier as it is spelled, reserved or not.
    Name(Text),
    /// A decimal number of 1 to 9 digits, by its value.
    Integer(u32),
    /// A real number as it is spelled.
    Real(Text),
    /// The bytes between two quotes.
    Quoted(Text),
    Symbol(BsdlSymbol),
    /// `:=`
    Becomes,
}

/// A word with its place in the text and its length, in bytes; a string's has the quotes.
#[derive(Drop)]
pub struct BsdlSpanned {
    pub word: BsdlToken,
    pub at: u64,
    pub len: u32,
}

impl BsdlToken {
    ghost use Rattle.bsdl_lexicon.specs.Words.{name_in, key_in, integer_in, real_in, quoted_in, symbol_in, becomes_in};

    /// The identifier that the word is, if it isn't reserved.
    pub fn name(&self) -> Option<&[u8]>
        ensures { option_copied result ≡ name_in self.now }
    {
        match self {
            BsdlToken::Name(name) => {
                if is_reserved(name.as_bytes()) {
                    None
                } else {
                    Some(name.as_bytes())
                }
            }
            BsdlToken::Integer(_)
            | BsdlToken::Real(_)
            | BsdlToken::Quoted(_)
            | BsdlToken::Symbol(_)
            | BsdlToken::Becomes => None,
        }
    }

    /// Whether the word is this identifier, without regard to case.
    pub fn is_key(&self, wanted: &[u8]) -> bool
        ensures { result ≡ is_some (key_in wanted.now self.now) }
    {
        match self {
            BsdlToken::Name(name) => same_name(name.as_bytes(), wanted),
            BsdlToken::Integer(_)
            | BsdlToken::Real(_)
            | BsdlToken::Quoted(_)
            | BsdlToken::Symbol(_)
            | BsdlToken::Becomes => false,
        }
    }

    /// The value of the integer that the word is.
    pub fn integer(&self) -> Option<u32>
        ensures { result ≡ integer_in self.now }
    {
        match self {
            BsdlToken::Integer(value) => Some(*value),
            BsdlToken::Name(_)
            | BsdlToken::Real(_)
            | BsdlToken::Quoted(_)
            | BsdlToken::Symbol(_)
            | BsdlToken::Becomes => None,
        }
    }

    /// The spelling of the real number that the word is.
    pub fn real(&self) -> Option<&[u8]>
        ensures { option_copied result ≡ real_in self.now }
    {
        match self {
            BsdlToken::Real(real) => Some(real.as_bytes()),
            BsdlToken::Name(_)
            | BsdlToken::Integer(_)
            | BsdlToken::Quoted(_)
            | BsdlToken::Symbol(_)
            | BsdlToken::Becomes => None,
        }
    }

    /// The contents of the string that the word is.
    pub fn quoted(&self) -> Option<&[u8]>
        ensures { option_copied result ≡ quoted_in self.now }
    {
        match self {
            BsdlToken::Quoted(contents) => Some(contents.as_bytes()),
            BsdlToken::Name(_)
            | BsdlToken::Integer(_)
            | BsdlToken::Real(_)
            | BsdlToken::Symbol(_)
            | BsdlToken::Becomes => None,
        }
    }

    /// Whether the word is this symbol.
    pub fn is_symbol(&self, wanted: BsdlSymbol) -> bool
        ensures { result ≡ is_some (symbol_in wanted self.now) }
    {
        match self {
            BsdlToken::Symbol(symbol) => symbol.byte() == wanted.byte(),
            BsdlToken::Name(_)
            | BsdlToken::Integer(_)
            | BsdlToken::Real(_)
            | BsdlToken::Quoted(_)
            | BsdlToken::Becomes => false,
        }
    }

    /// Whether the word is `:=`.
    pub fn is_becomes(&self) -> bool
        ensures { result ≡ is_some (becomes_in self.now) }
    {
        match self {
            BsdlToken::Becomes => true,
            BsdlToken::Name(_)
            | BsdlToken::Integer(_)
            | BsdlToken::Real(_)
            | BsdlToken::Quoted(_)
            | BsdlToken::Symbol(_) => false,
        }
    }
}
