use cell_library::{Bits, BoundaryKind, Function, Opcode};
use word_cutter::lower_texts::{Row, Text};

/// What a port is to the device.
#[derive(Clone, Copy, Drop, PartialEq, Eq)]
pub enum PortMode {
    Input,
    Output,
    Inout,
    /// Neither read nor driven by the logic, as a supply pin.
    Linkage,
}

/// The range of a vector, in either direction; each bound is below 10^9.
#[derive(Clone, Copy, Drop, PartialEq, Eq)]
pub struct PortRange {
    pub left: u32,
    pub right: u32,
}

/// A port and its physical pins: one for a scalar, and one for each bit of a vector, from the left.
#[derive(Drop)]
pub struct DevPort {
    pub name: Text,
    pub mode: PortMode,
    pub range: Option<PortRange>,
    pub pins: Row<Text>,
}

/// The levels at which TCK may stop.
#[derive(Clone, Copy, Drop, PartialEq, Eq)]
pub enum Stop {
    Low,
    Both,
}

/// A bit of a port by the port's place; a scalar has no index.
#[derive(Clone, Copy, Drop, PartialEq, Eq)]
pub struct DevBit {
    pub port: u32,
    pub index: Option<u32>,
}

/// The control cell of a driver, by its number, and the value there that disables the driver.
#[derive(Clone, Copy, Drop, PartialEq, Eq)]
pub struct Disable {
    pub control: u32,
    pub value: bool,
}

/// The value that a cell is to hold where nothing else is wanted.
#[derive(Clone, Copy, Drop, PartialEq, Eq)]
pub enum Safe {
    Zero,
    One,
    Any,
}

/// A cell of the boundary register; a control cell has no port.
#[derive(Clone, Copy, Drop, PartialEq, Eq)]
pub struct CellRow {
    pub cell: BoundaryKind,
    pub pin: Option<DevBit>,
    pub function: Function,
    pub safe: Safe,
    pub disable: Option<Disable>,
}

/// A device with test logic. The pins of the test logic are places in `ports`, and a cell's number is its
/// place in `cells`.
#[derive(Drop)]
pub struct Device {
    pub entity: Text,
    pub package: Text,
    pub ports: Row<DevPort>,
    pub tck: u32,
    pub tms: u32,
    pub tdi: u32,
    pub tdo: u32,
    pub trst: u32,
    /// The greatest frequency of TCK, as it is written.
    pub clock: Text,
    pub stop: Stop,
    /// The length of the instruction register.
    pub length: u32,
    pub opcodes: Row<Opcode>,
    pub capture: Bits,
    pub idcode: Option<u32>,
    pub usercode: Option<u32>,
    pub cells: Row<CellRow>,
}
