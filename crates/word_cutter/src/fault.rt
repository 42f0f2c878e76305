use texts::OutOfMemory;

/// Why a text isn't cut.
#[derive(Clone, Copy, Drop, PartialEq, Eq)]
pub enum CutFault {
    /// The machine takes the bytes before `place`, and not the one there; or the text ends there too early.
    BadByte { place: u64 },
    /// Memory was refused, or a place or a word is too far.
    OutOfMemory,
}

impl From<OutOfMemory> for CutFault {
    ghost use Rattle.std.specs.Prelude.{◌≡◌};
    ghost use Rattle.word_cutter.specs.declared.fault.CutFault.TheVariants as fault;

    ghost from_gives = { λ _ e. e ≡ fault.OutOfMemory };

    fn from(_error: OutOfMemory) -> CutFault {
        CutFault::OutOfMemory
    }
}
