ghost use Rattle.std.specs.Prelude.{◌≡◌};

/// A symbol of one byte.
#[derive(Clone, Copy, Drop, PartialEq, Eq)]
pub enum BsdlSymbol {
    /// `(`
    LeftParenthesis,
    /// `)`
    RightParenthesis,
    /// `:`
    Colon,
    /// `;`
    Semicolon,
    /// `,`
    Comma,
    /// `&`
    Ampersand,
    /// `.`
    Dot,
}

impl BsdlSymbol {
    ghost use Rattle.bsdl_lexicon.specs.Words.{symbol_byte};

    /// The byte that the symbol is written by.
    pub fn byte(self) -> u8
        ensures { result ≡ symbol_byte self }
    {
        match self {
            BsdlSymbol::LeftParenthesis => b'(',
            BsdlSymbol::RightParenthesis => b')',
            BsdlSymbol::Colon => b':',
            BsdlSymbol::Semicolon => b';',
            BsdlSymbol::Comma => b',',
            BsdlSymbol::Ampersand => b'&',
            BsdlSymbol::Dot => b'.',
        }
    }
}
