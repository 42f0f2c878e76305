ghost use Rattle.std.specs.Prelude.{◌≡◌};
ghost use Rattle.bsdl_values.specs.RegisterTextsFaultKinds.{extended_fault, memory_fault};

use bsdl_device::MeaningKind;
use bsdl_device::registers::ExtendedFault;
use texts::OutOfMemory;

/// Why a text spells no device with registers of its own.
#[derive(Clone, Copy, Drop)]
pub enum ExtendedTextFault {
    /// The bytes are no words from there on.
    BsdlWord { place: u64 },
    /// The words are no device from there on.
    BsdlSyntax { place: u64, word: u64 },
    /// The section there breaks a rule.
    BsdlMeaning { kind: MeaningKind, place: u64 },
    /// The section there breaks a rule on a register of the design's own.
    BsdlExtra { place: u64 },
    OutOfMemory,
}

impl From<ExtendedFault> for ExtendedTextFault {
    ghost from_gives = { λ fault made. made ≡ extended_fault fault };

    fn from(fault: ExtendedFault) -> ExtendedTextFault {
        match fault {
            ExtendedFault::BsdlSyntax { place, word } => ExtendedTextFault::BsdlSyntax {
                place,
                word,
            },
            ExtendedFault::BsdlMeaning { kind, place } => ExtendedTextFault::BsdlMeaning {
                kind,
                place,
            },
            ExtendedFault::BsdlExtra { place } => ExtendedTextFault::BsdlExtra { place },
            ExtendedFault::OutOfMemory => ExtendedTextFault::OutOfMemory,
        }
    }
}

impl From<OutOfMemory> for ExtendedTextFault {
    ghost from_gives = { λ _ made. made ≡ memory_fault };

    fn from(_fault: OutOfMemory) -> ExtendedTextFault {
        ExtendedTextFault::OutOfMemory
    }
}
