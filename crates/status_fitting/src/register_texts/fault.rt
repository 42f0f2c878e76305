use texts::{OutOfMemory, Text};

/// Why a text of registers can't be had, or doesn't fit; of several faults, the first by this order.
#[derive(Drop)]
pub enum StatusFault {
    /// A line that can't stand there, or where the text ends too early the line after the last.
    StatusLine { line: u64 },
    /// A register's or an instruction's name that can't be one, or that is taken.
    StatusName { word: Text },
    /// The word names no bit of a wire that is driven.
    StatusNet { word: Text },
    /// The instruction's opcode has another length than the plan's, or is taken.
    StatusOpcode { word: Text },
    OutOfMemory,
}

impl From<OutOfMemory> for StatusFault {
    ghost use Rattle.std.specs.Prelude.{◌≡◌};
    ghost use Rattle.status_fitting.specs.declared.register_texts.fault.StatusFault.TheVariants as fault;

    ghost from_gives = { λ _ e. e ≡ fault.OutOfMemory };

    fn from(_error: OutOfMemory) -> StatusFault {
        StatusFault::OutOfMemory
    }
}

/// Why lines aren't read: one can't stand there, or memory was refused.
#[derive(Drop)]
pub enum LineFault {
    Line,
    OutOfMemory,
}

impl From<OutOfMemory> for LineFault {
    ghost use Rattle.std.specs.Prelude.{◌≡◌};
    ghost use Rattle.status_fitting.specs.declared.register_texts.fault.LineFault.TheVariants as fault;

    ghost from_gives = { λ _ e. e ≡ fault.OutOfMemory };

    fn from(_error: OutOfMemory) -> LineFault {
        LineFault::OutOfMemory
    }
}
