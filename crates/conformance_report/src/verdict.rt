use signal_values::PinSig;
use texts::Row;

/// An expectation that isn't met: the number of its line, what it wants, and what is read.
#[derive(Clone, Copy, Drop)]
pub struct Missed {
    pub line: u64,
    pub want: PinSig,
    pub got: PinSig,
}

/// What a run of a script shows: how many sets it has, how many expectations are met, and the others in their order.
#[derive(Drop)]
pub struct Verdict {
    pub sets: u64,
    pub met: u64,
    pub missed: Row<Missed>,
}
