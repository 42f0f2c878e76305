use insertion_inputs::InsertFault;
use netlist_arena::ReserveFault;
use status_fitting::register_texts::StatusFault;
use texts::OutOfMemory;

/// Why nothing can be inserted with these registers. The faults of the registers come behind those of the netlist and
/// the plan, and before there is too much of something.
#[derive(Drop)]
pub enum StatusInsertFault {
    /// The netlist or the plan is at fault, with the registers there would be too many of something, or memory was
    /// refused.
    Insert(InsertFault),
    /// The text of the registers is none, or they don't fit the plan and the netlist.
    Registers(StatusFault),
}

impl From<InsertFault> for StatusInsertFault {
    ghost use Rattle.std.specs.Prelude.{◌≡◌};
    ghost use Rattle.status_inputs.specs.declared.fault.StatusInsertFault.TheVariants as made;

    ghost from_gives = { λ fault e. e ≡ made.Insert fault };

    fn from(fault: InsertFault) -> StatusInsertFault {
        StatusInsertFault::Insert(fault)
    }
}

impl From<StatusFault> for StatusInsertFault {
    ghost use Rattle.std.specs.Prelude.{◌≡◌};
    ghost use Rattle.status_inputs.specs.declared.fault.StatusInsertFault.TheVariants as made;

    ghost from_gives = { λ fault e. e ≡ made.Registers fault };

    fn from(fault: StatusFault) -> StatusInsertFault {
        StatusInsertFault::Registers(fault)
    }
}

impl From<ReserveFault> for StatusInsertFault {
    ghost use Rattle.std.specs.Prelude.{◌≡◌};
    ghost use Rattle.status_inputs.specs.Reserves.{reserve_fault};

    ghost from_gives = { λ fault e. e ≡ reserve_fault fault };

    fn from(fault: ReserveFault) -> StatusInsertFault {
        match fault {
            ReserveFault::TooMany { what, count, limit } => {
                StatusInsertFault::Insert(InsertFault::TooMany { what, count, limit })
            }
            ReserveFault::OutOfMemory => StatusInsertFault::Insert(InsertFault::OutOfMemory),
        }
    }
}

impl From<OutOfMemory> for StatusInsertFault {
    ghost use Rattle.std.specs.Prelude.{◌≡◌};
    ghost use Rattle.status_inputs.specs.Reserves.{memory_fault};

    ghost from_gives = { λ _ e. e ≡ memory_fault };

    fn from(_fault: OutOfMemory) -> StatusInsertFault {
        StatusInsertFault::Insert(InsertFault::OutOfMemory)
    }
}
