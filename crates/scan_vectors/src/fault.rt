use netlist_model::What;
use texts::OutOfMemory;

/// Why bytes spell no event lines; of several faults, that of the first line in the text.
#[derive(Drop)]
pub enum EventFault {
    /// A line that is none of events, or stands where it can't.
    EventLine { line: u64 },
    /// More event lines than the limit.
    TooMany { what: What, count: u64, limit: u64 },
    OutOfMemory,
}

impl From<OutOfMemory> for EventFault {
    ghost use Rattle.std.specs.Prelude.{◌≡◌};
    ghost use Rattle.scan_vectors.specs.declared.fault.EventFault.TheVariants as fault;

    ghost from_gives = { λ _ e. e ≡ fault.OutOfMemory };

    fn from(_error: OutOfMemory) -> EventFault {
        EventFault::OutOfMemory
    }
}
