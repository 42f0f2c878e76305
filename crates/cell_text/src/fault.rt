use texts::{OutOfMemory, Text};

/// Why bytes spell no library; of several faults, the first by this order, and of one kind the first in the text.
#[derive(Debug, Drop)]
pub enum LibFault {
    /// A line that can't stand there; or, where each line is skipped, the line after the last.
    LibLine { line: u64 },
    /// More than 4,096 cells.
    TooMany { count: u64 },
    /// A name that no cell can have, that of one of the seven, or one that came before.
    LibName { name: Text },
    /// Ports that can't be the cell's, or steps that don't leave one value.
    LibBody { name: Text },
    OutOfMemory,
}

impl From<OutOfMemory> for LibFault {
    ghost use Rattle.std.specs.Prelude.{◌≡◌};
    ghost use Rattle.cell_text.specs.declared.fault.LibFault.TheVariants as fault;

    ghost from_gives = { λ _ e. e ≡ fault.OutOfMemory };

    fn from(_error: OutOfMemory) -> LibFault {
        LibFault::OutOfMemory
    }
}
