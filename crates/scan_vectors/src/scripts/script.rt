use crate::Act;
use netlist_model::PinBit;
use signal_values::PinSig;
use texts::Row;

/// An event line whose pin was found; the number is that of its line in the text.
#[derive(Clone, Copy, PartialEq, Eq)]
pub struct ScriptLine {
    pub act: Act,
    pub pin: PinBit,
    pub value: PinSig,
    pub number: u64,
}

/// The event lines of a text in order, with their pins found.
#[derive(Drop)]
pub struct Script {
    pub list: Row<ScriptLine>,
}
