use word_cutter::CutFault;

/// Why a text isn't cut into words.
#[derive(Clone, Copy, Debug, Drop, PartialEq, Eq)]
pub enum WordFault {
    /// The bytes before `place` begin some text of the word grammar, and no more of them do.
    BadWord { place: u64 },
    /// Memory was refused, or a word begins past the first 4 GiB of the text.
    OutOfMemory,
}

impl From<CutFault> for WordFault {
    ghost use Rattle.std.specs.Prelude.{◌≡◌};
    ghost use Rattle.verilog_words.specs.Kinds.{word_fault};

    ghost from_gives = { λ fault e. e ≡ word_fault fault };

    fn from(fault: CutFault) -> WordFault {
        match fault {
            CutFault::BadByte { place } => WordFault::BadWord { place },
            CutFault::OutOfMemory => WordFault::OutOfMemory,
        }
    }
}
