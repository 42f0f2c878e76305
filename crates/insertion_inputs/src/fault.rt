use link_model::LinkFault;
use netlist_arena::ReserveFault;
use netlist_model::What;
use plan_fitting::FitFault;
use plan_texts::PlanFault;
use texts::OutOfMemory;
use verilog_texts::TextFault;

/// Why nothing can be inserted; of several faults, the first by this order.
#[derive(Drop)]
pub enum InsertFault {
    /// The netlist's text is no module.
    Netlist(TextFault),
    /// The module can't be linked.
    Link(LinkFault),
    /// The plan's text is no plan.
    Plan(PlanFault),
    /// The plan doesn't fit the netlist.
    Fit(FitFault),
    /// With the test logic there would be too many of something.
    TooMany { what: What, count: u64, limit: u64 },
    OutOfMemory,
}

impl From<TextFault> for InsertFault {
    ghost use Rattle.std.specs.Prelude.{◌≡◌};
    ghost use Rattle.insertion_inputs.specs.declared.fault.InsertFault.TheVariants as made;

    ghost from_gives = { λ fault e. e ≡ made.Netlist fault };

    fn from(fault: TextFault) -> InsertFault {
        InsertFault::Netlist(fault)
    }
}

impl From<LinkFault> for InsertFault {
    ghost use Rattle.std.specs.Prelude.{◌≡◌};
    ghost use Rattle.insertion_inputs.specs.declared.fault.InsertFault.TheVariants as made;

    ghost from_gives = { λ fault e. e ≡ made.Link fault };

    fn from(fault: LinkFault) -> InsertFault {
        InsertFault::Link(fault)
    }
}

impl From<PlanFault> for InsertFault {
    ghost use Rattle.std.specs.Prelude.{◌≡◌};
    ghost use Rattle.insertion_inputs.specs.declared.fault.InsertFault.TheVariants as made;

    ghost from_gives = { λ fault e. e ≡ made.Plan fault };

    fn from(fault: PlanFault) -> InsertFault {
        InsertFault::Plan(fault)
    }
}

impl From<FitFault> for InsertFault {
    ghost use Rattle.std.specs.Prelude.{◌≡◌};
    ghost use Rattle.insertion_inputs.specs.declared.fault.InsertFault.TheVariants as made;

    ghost from_gives = { λ fault e. e ≡ made.Fit fault };

    fn from(fault: FitFault) -> InsertFault {
        InsertFault::Fit(fault)
    }
}

impl From<ReserveFault> for InsertFault {
    ghost use Rattle.std.specs.Prelude.{◌≡◌};
    ghost use Rattle.insertion_inputs.specs.Reserves.{reserve_fault};

    ghost from_gives = { λ fault e. e ≡ reserve_fault fault };

    fn from(fault: ReserveFault) -> InsertFault {
        match fault {
            ReserveFault::TooMany { what, count, limit } => {
                InsertFault::TooMany { what, count, limit }
            }
            ReserveFault::OutOfMemory => InsertFault::OutOfMemory,
        }
    }
}

impl From<OutOfMemory> for InsertFault {
    ghost use Rattle.std.specs.Prelude.{◌≡◌};
    ghost use Rattle.insertion_inputs.specs.declared.fault.InsertFault.TheVariants as made;

    ghost from_gives = { λ _ e. e ≡ made.OutOfMemory };

    fn from(_fault: OutOfMemory) -> InsertFault {
        InsertFault::OutOfMemory
    }
}
