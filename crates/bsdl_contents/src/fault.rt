ghost use Rattle.std.specs.Prelude.{◌≡◌};
ghost use Rattle.bsdl_contents.specs.declared.fault.PartFault.TheVariants.{OutOfMemory as OutOfMemoryFault};

use texts::OutOfMemory;

/// Why a part of a section's contents isn't read.
#[derive(Clone, Copy, Drop)]
pub enum PartFault {
    Wrong,
    OutOfMemory,
}

impl From<OutOfMemory> for PartFault {
    ghost from_gives = { λ _ fault. fault ≡ OutOfMemoryFault };

    fn from(_error: OutOfMemory) -> PartFault {
        PartFault::OutOfMemory
    }
}

impl PartFault {
    ghost use Rattle.bsdl_contents.specs.Outcomes.{blamed};

    /// Why the file has no contents, where this section's are at fault.
    pub fn at(self, section: HeldSection) -> ContentsFault
        ensures { result ≡ blamed section self }
    {
        match self {
            PartFault::Wrong => ContentsFault::Section(section),
            PartFault::OutOfMemory => ContentsFault::OutOfMemory,
        }
    }
}

/// A section whose strings hold something.
#[derive(Clone, Copy, Drop, PartialEq, Eq)]
pub enum HeldSection {
    PinMap,
    Opcodes,
    Capture,
    Idcode,
    Usercode,
    Access,
    Rows,
}

/// Why a file has no contents.
#[derive(Clone, Copy, Drop)]
pub enum ContentsFault {
    /// The first section whose strings hold what they can't.
    Section(HeldSection),
    OutOfMemory,
}
