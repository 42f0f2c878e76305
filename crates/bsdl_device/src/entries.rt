use crate::values::{Disable, Safe};
use cell_library::{Bits, BoundaryKind, Function};
use word_cutter::lower_texts::{Row, Text};

/// The pins of a port as a pin map has them: one, or some in parentheses.
#[derive(Drop)]
pub enum MappedPins {
    One(Text),
    Several(Row<Text>),
}

/// `port:pin` or `port:(pin,pin)`
#[derive(Drop)]
pub struct PinEntry {
    pub port: Text,
    pub pins: MappedPins,
}

/// `INSTRUCTION (bits)`
#[derive(Drop)]
pub struct OpcodeEntry {
    pub name: Text,
    pub bits: Bits,
}

/// A test data register of the profile.
#[derive(Clone, Copy, Drop, PartialEq, Eq)]
pub enum Register {
    Boundary,
    Bypass,
    DeviceId,
}

/// `REGISTER (INSTRUCTION, INSTRUCTION)`
#[derive(Drop)]
pub struct AccessEntry {
    pub register: Register,
    pub instructions: Row<Text>,
}

/// `port` or `port(index)`
#[derive(Drop)]
pub struct PortBit {
    pub port: Text,
    pub index: Option<u32>,
}

/// `number (cell, port, function, safe)`, where `*` stands for no port; a driver's has its control cell, the disabling
/// value and `Z` besides.
#[derive(Drop)]
pub struct RowEntry {
    pub number: u32,
    pub cell: BoundaryKind,
    pub port: Option<PortBit>,
    pub function: Function,
    pub safe: Safe,
    pub disable: Option<Disable>,
}

/// What the strings of a file's sections hold.
#[derive(Drop)]
pub struct Contents {
    pub pin_map: Row<PinEntry>,
    pub opcodes: Row<OpcodeEntry>,
    pub capture: Bits,
    pub idcode: Option<u32>,
    pub usercode: Option<u32>,
    pub access: Row<AccessEntry>,
    pub rows: Row<RowEntry>,
}
