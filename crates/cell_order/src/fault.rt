use texts::{OutOfMemory, Row};

/// Why cells get no order.
#[derive(Drop)]
pub enum OrderFault {
    /// Each of these gates reads the one before, and the first reads the last; none stands twice.
    Loop { numbers: Row<u32> },
    OutOfMemory,
}

impl From<OutOfMemory> for OrderFault {
    ghost use Rattle.std.specs.Prelude.{◌≡◌};
    ghost use Rattle.cell_order.specs.declared.fault.OrderFault.TheVariants as fault;

    ghost from_gives = { λ _ e. e ≡ fault.OutOfMemory };

    fn from(_error: OutOfMemory) -> OrderFault {
        OrderFault::OutOfMemory
    }
}
