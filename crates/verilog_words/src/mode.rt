ghost use Rattle.std.specs.Prelude.{◌≡◌};

/// A part of a text that stars enclose.
#[derive(Clone, Copy, Drop)]
pub enum Enclosure {
    BlockComment,
    Attribute,
}

/// A compiler directive of the profile.
#[derive(Clone, Copy, Drop)]
pub enum Directive {
    Timescale,
    DefaultNettype,
    Celldefine,
    Endcelldefine,
}

/// What was begun of the next piece of a text.
#[derive(Clone, Copy, Drop)]
pub enum Mode {
    Between,
    /// After `/`.
    Slash,
    /// What goes up to the end of its line.
    Line,
    /// After `(`.
    Open,
    Enclosed(Enclosure),
    /// After a star that may close.
    EnclosedStar(Enclosure),
    /// After a backquote.
    Backquote,
    Directive(Directive),
    Name,
    Escaped,
    Number,
    /// After `1'`.
    Quote,
    /// After `1'` and a base.
    Base,
    /// After a constant's digit.
    Constant(bool),
}

impl Enclosure {
    ghost use Rattle.verilog_words.specs.Machine.{closer};

    /// The byte that closes after a star.
    pub fn closer(self) -> u8
        ensures { result ≡ closer self }
    {
        match self {
            Enclosure::BlockComment => b'/',
            Enclosure::Attribute => b')',
        }
    }
}

impl Directive {
    ghost use Rattle.verilog_words.specs.Machine.{directive_name, takes_line};

    /// The bytes behind the accent.
    pub fn name(self) -> &'static [u8]
        ensures { result.now ≡ directive_name self }
    {
        match self {
            Directive::Timescale => b"timescale".as_slice(),
            Directive::DefaultNettype => b"default_nettype".as_slice(),
            Directive::Celldefine => b"celldefine".as_slice(),
            Directive::Endcelldefine => b"endcelldefine".as_slice(),
        }
    }

    /// Whether the rest of the line belongs to the directive.
    pub fn takes_line(self) -> bool
        ensures { result ≡ takes_line self }
    {
        match self {
            Directive::Timescale | Directive::DefaultNettype => true,
            Directive::Celldefine | Directive::Endcelldefine => false,
        }
    }
}
