// What a control cell is found by.

/// An operand: a net, or a constant.
#[derive(Clone, Copy, PartialEq, Eq, Hash)]
pub enum OperandKey {
    Net(u32),
    Const(bool),
}

/// What a control cell is for: the control operand of gates, and whether 1 enables them.
#[derive(Clone, Copy, PartialEq, Eq, Hash)]
pub struct ControlKey {
    pub operand: OperandKey,
    pub active_high: bool,
}
