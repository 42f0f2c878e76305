ghost use Rattle.std.specs.Prelude.{◌≡◌};
ghost use Rattle.bsdl_device.specs.RegistersFaultKinds.{memory_fault};

use crate::MeaningKind;
use word_cutter::lower_texts::OutOfMemory;

/// Why words spell no device with registers of its own. Places are offsets in bytes, and words are counted from 0.
#[derive(Clone, Copy, Drop)]
pub enum ExtendedFault {
    /// The words are no file's, or strings hold what they can't; where it is the end that comes too soon, the text's
    /// length and the count of words.
    BsdlSyntax { place: u64, word: u64 },
    /// The first rule on the base device that is broken, and the place of the section at which it is told.
    BsdlMeaning { kind: MeaningKind, place: u64 },
    /// A rule on the further registers is broken; the place is that of the section REGISTER_ACCESS.
    BsdlExtra { place: u64 },
    OutOfMemory,
}

impl From<OutOfMemory> for ExtendedFault {
    ghost from_gives = { λ _ made. made ≡ memory_fault };

    fn from(_fault: OutOfMemory) -> ExtendedFault {
        ExtendedFault::OutOfMemory
    }
}
