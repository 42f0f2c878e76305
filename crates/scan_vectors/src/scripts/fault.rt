use texts::OutOfMemory;

/// Why event lines are no script for a netlist.
#[derive(Drop)]
pub enum ScriptFault {
    /// The line breaks a rule on events, or the lines end there too early.
    EventIllegal { line: u64 },
    OutOfMemory,
}

impl From<OutOfMemory> for ScriptFault {
    ghost use Rattle.std.specs.Prelude.{◌≡◌};
    ghost use Rattle.scan_vectors.specs.declared.scripts.fault.ScriptFault.TheVariants as fault;

    ghost from_gives = { λ _ e. e ≡ fault.OutOfMemory };

    fn from(_error: OutOfMemory) -> ScriptFault {
        ScriptFault::OutOfMemory
    }
}
