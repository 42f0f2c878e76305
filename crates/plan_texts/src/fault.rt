use texts::{OutOfMemory, Text};

/// Why bytes spell no plan; of several faults, the first by this order.
#[derive(Debug, Drop)]
pub enum PlanFault {
    /// A line that can't stand there, or where the plan ends too early the line after the last.
    PlanLine { line: u64 },
    /// The instruction stands twice.
    PlanTwice { word: Text },
    /// An opcode that can't be the instruction's, an instruction that is missing, or `capture`.
    PlanOpcode { word: Text },
    /// The identification code can't be one, or stands without its instruction, or the instruction without it.
    PlanIdcode,
    /// A usercode without its instruction or the instruction without it, or without IDCODE, or of other than 32 bits.
    PlanUsercode,
    /// The instruction isn't of the profile.
    PlanInstruction { word: Text },
    OutOfMemory,
}

impl From<OutOfMemory> for PlanFault {
    ghost use Rattle.std.specs.Prelude.{◌≡◌};
    ghost use Rattle.plan_texts.specs.declared.fault.PlanFault.TheVariants as fault;

    ghost from_gives = { λ _ e. e ≡ fault.OutOfMemory };

    fn from(_error: OutOfMemory) -> PlanFault {
        PlanFault::OutOfMemory
    }
}

/// Why a line isn't read: it is none that may stand there, or memory was refused.
#[derive(Drop)]
pub enum LineFault {
    Line,
    OutOfMemory,
}

impl From<OutOfMemory> for LineFault {
    ghost use Rattle.std.specs.Prelude.{◌≡◌};
    ghost use Rattle.plan_texts.specs.declared.fault.LineFault.TheVariants as fault;

    ghost from_gives = { λ _ e. e ≡ fault.OutOfMemory };

    fn from(_error: OutOfMemory) -> LineFault {
        LineFault::OutOfMemory
    }
}
