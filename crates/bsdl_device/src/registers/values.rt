use crate::Device;
use cell_library::Bits;
use word_cutter::lower_texts::{Row, Text};

/// `NAME [length] (INSTRUCTION)`, an entry of REGISTER_ACCESS
#[derive(Drop)]
pub struct RegisterEntry {
    pub name: Text,
    pub length: u32,
    pub instruction: Text,
}

/// A test data register of the design's own: its name, the instruction that selects it, that instruction's opcode,
/// and how many bits it has.
#[derive(Drop)]
pub struct TestRegister {
    pub name: Text,
    pub instr: Text,
    pub bits: Bits,
    pub length: u32,
}

/// A device and the registers that it has besides.
#[derive(Drop)]
pub struct Extended {
    pub device: Device,
    pub registers: Row<TestRegister>,
}
