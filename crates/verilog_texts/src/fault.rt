ghost use Rattle.std.specs.Prelude.{◌≡◌};
ghost use Rattle.verilog_texts.specs.TextFaults.{word_fault, syntax_fault, memory_fault};

use texts::OutOfMemory;
use verilog_modules::SyntaxFault;
use verilog_words::WordFault;

/// Why a text is no module. Places are offsets in bytes, and words are counted from 0.
#[derive(Clone, Copy, Debug, Drop)]
pub enum TextFault {
    /// The bytes are no words from there on.
    BadWord { place: u64 },
    /// The words are no module from there on.
    BadSyntax { place: u64, word: u64 },
    OutOfMemory,
}

impl From<WordFault> for TextFault {
    ghost from_gives = { λ fault made. made ≡ word_fault fault };

    fn from(fault: WordFault) -> TextFault {
        match fault {
            WordFault::BadWord { place } => TextFault::BadWord { place },
            WordFault::OutOfMemory => TextFault::OutOfMemory,
        }
    }
}

impl From<SyntaxFault> for TextFault {
    ghost from_gives = { λ fault made. made ≡ syntax_fault fault };

    fn from(fault: SyntaxFault) -> TextFault {
        match fault {
            SyntaxFault::BadSyntax { place, word } => TextFault::BadSyntax { place, word },
            SyntaxFault::OutOfMemory => TextFault::OutOfMemory,
        }
    }
}

impl From<OutOfMemory> for TextFault {
    ghost from_gives = { λ _ made. made ≡ memory_fault };

    fn from(_fault: OutOfMemory) -> TextFault {
        TextFault::OutOfMemory
    }
}
