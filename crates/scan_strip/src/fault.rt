use insertion_inputs::InsertFault;
use link_model::LinkFault;
use plan_fitting::FitFault;
use plan_texts::PlanFault;
use texts::OutOfMemory;

/// Why nothing is stripped.
#[derive(Clone, Copy, Drop)]
pub enum StripFault {
    /// No netlist with the library, and no plan, give the module and the device.
    NotInserted,
    OutOfMemory,
}

impl From<OutOfMemory> for StripFault {
    ghost use Rattle.std.specs.Prelude.{◌≡◌};
    ghost use Rattle.scan_strip.specs.declared.fault.StripFault.TheVariants as made;

    ghost from_gives = { λ _ e. e ≡ made.OutOfMemory };

    fn from(_fault: OutOfMemory) -> StripFault {
        StripFault::OutOfMemory
    }
}

// What can't be linked comes from no netlist.
impl From<LinkFault> for StripFault {
    ghost use Rattle.std.specs.Prelude.{◌≡◌};
    ghost use Rattle.scan_strip.specs.Refusals.{of_link};

    ghost from_gives = { λ fault e. e ≡ of_link fault };

    fn from(fault: LinkFault) -> StripFault {
        match fault {
            LinkFault::OutOfMemory => StripFault::OutOfMemory,
            _ => StripFault::NotInserted,
        }
    }
}

// And what doesn't fit as little.
impl From<InsertFault> for StripFault {
    ghost use Rattle.std.specs.Prelude.{◌≡◌};
    ghost use Rattle.scan_strip.specs.Refusals.{of_insert};

    ghost from_gives = { λ fault e. e ≡ of_insert fault };

    fn from(fault: InsertFault) -> StripFault {
        match fault {
            InsertFault::Netlist(_) => StripFault::NotInserted,
            InsertFault::Link(_) => StripFault::NotInserted,
            InsertFault::Plan(PlanFault::OutOfMemory) => StripFault::OutOfMemory,
            InsertFault::Plan(_) => StripFault::NotInserted,
            InsertFault::Fit(FitFault::OutOfMemory) => StripFault::OutOfMemory,
            InsertFault::Fit(_) => StripFault::NotInserted,
            InsertFault::TooMany { .. } => StripFault::NotInserted,
            InsertFault::OutOfMemory => StripFault::OutOfMemory,
        }
    }
}
