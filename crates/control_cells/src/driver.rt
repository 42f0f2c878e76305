use netlist_model::Feed;
use std::marker::Model;

/// The driver of a pin: its data operand, its control operand, and whether 1 enables it.
#[derive(Clone, Copy, Drop)]
pub struct Driver {
    pub core: Feed,
    pub operand: Feed,
    pub active_high: bool,
}

impl Model for Driver {
    ghost use Rattle.plan_fitting.specs.Rows.{Driver};

    ghost Value = { Driver };

    ghost view = { λ d. record { core = d.core; operand = d.operand; active_high = d.active_high } };

    ghost inverse = { λ d. record { core = d.core; operand = d.operand; active_high = d.active_high } };
}
