use word_cutter::CutFault;

/// Why a BSDL text isn't cut into words.
#[derive(Clone, Copy, Debug, Drop, PartialEq, Eq)]
pub enum BsdlWordFault {
    /// The bytes before `place` begin some text of the word grammar, and no more of them do.
    BsdlWord { place: u64 },
    /// Memory was refused, or a word has 4 GiB or more.
    OutOfMemory,
}

impl From<CutFault> for BsdlWordFault {
    ghost use Rattle.std.specs.Prelude.{◌≡◌};
    ghost use Rattle.bsdl_words.specs.Kinds.{word_fault};

    ghost from_gives = { λ fault e. e ≡ word_fault fault };

    fn from(fault: CutFault) -> BsdlWordFault {
        match fault {
            CutFault::BadByte { place } => BsdlWordFault::BsdlWord { place },
            CutFault::OutOfMemory => BsdlWordFault::OutOfMemory,
        }
    }
}
