use cell_library::{Bits, BoundaryKind, Opcode};
use texts::{Row, Text};

/// A port beside the netlist's, of the test access port or for linkage, and its physical pin.
#[derive(Drop)]
pub struct TapLine {
    pub name: Text,
    pub pin: Text,
}

/// A bit of a port of the netlist, `name` or `name[index]`, its physical pin and the kind of its boundary cell.
#[derive(Drop)]
pub struct PinLine {
    pub port: Text,
    pub pin: Text,
    pub cell: BoundaryKind,
}

/// What is to be built into a netlist: the device's names and pins, its instructions, and a boundary cell
/// for each pin line.
#[derive(Drop)]
pub struct Plan {
    /// 1 or 2; version 2 has USERCODE besides.
    pub version: u32,
    pub entity: Text,
    /// The name of the pin map.
    pub package: Text,
    /// What the names of added nets and cells begin with.
    pub prefix: Text,
    pub tck: TapLine,
    pub tms: TapLine,
    pub tdi: TapLine,
    pub tdo: TapLine,
    pub trst: TapLine,
    /// The greatest frequency of TCK in megahertz, as its digits.
    pub clock: Text,
    /// The length of the instruction register.
    pub length: u32,
    /// What the instruction register captures.
    pub capture: Bits,
    /// In the order of the text.
    pub opcodes: Row<Opcode>,
    /// The identification code: version in bits 31 to 28, part in 27 to 12, manufacturer in 11 to 1, and bit 0.
    pub idcode: Option<u32>,
    /// What the identification register captures under USERCODE.
    pub usercode: Option<u32>,
    /// The kind of the control cells.
    pub control: BoundaryKind,
    pub pins: Row<PinLine>,
    pub linkage: Row<TapLine>,
}
