use cell_library::Bits;
use texts::{Row, Text};

/// A data register that captures wires, and the instruction that selects it.
#[derive(Drop)]
pub struct StatusRow {
    pub name: Text,
    pub instr: Text,
    /// The instruction's opcode.
    pub bits: Bits,
    /// A wire's bit each, `name` or `name[index]`; the first is nearest TDO.
    pub words: Row<Text>,
}

/// The data registers that are to be built in besides the device's own.
#[derive(Drop)]
pub struct StatusPlan {
    /// In the order of the text.
    pub registers: Row<StatusRow>,
}
