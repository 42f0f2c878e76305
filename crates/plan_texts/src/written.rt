// A plan as it is written, in the order of its lines.
use crate::plan::{PinLine, TapLine};
use bsdl_device::OpcodeEntry;
use cell_library::{Bits, BoundaryKind};
use texts::{Row, Text};

/// The lines `plan`, `entity`, `package` and `prefix`.
#[derive(Drop)]
pub struct Names {
    pub version: u32,
    pub entity: Text,
    pub package: Text,
    pub prefix: Text,
}

/// The lines of the test access port.
#[derive(Drop)]
pub struct TapLines {
    pub tck: TapLine,
    pub tms: TapLine,
    pub tdi: TapLine,
    pub tdo: TapLine,
    pub trst: TapLine,
}

/// The lines `clock`, `length` and `capture`.
#[derive(Drop)]
pub struct Registers {
    pub clock: Text,
    pub length: u32,
    pub capture: Bits,
}

/// The groups of an identification code.
#[derive(Clone, Copy)]
pub struct CodeGroups {
    pub version: Bits,
    pub part: Bits,
    pub manufacturer: Bits,
    pub mark: Bits,
}

/// The lines `opcode`, whose instructions may be unknown, `idcode`, `usercode` and `control`.
#[derive(Drop)]
pub struct Codes {
    pub opcodes: Row<OpcodeEntry>,
    pub idcode: Option<CodeGroups>,
    pub usercode: Option<Bits>,
    pub control: BoundaryKind,
}

/// The lines `pin` and `linkage`.
#[derive(Drop)]
pub struct Pins {
    pub pins: Row<PinLine>,
    pub linkage: Row<TapLine>,
}

/// The lines of a whole plan.
#[derive(Drop)]
pub struct Written {
    pub names: Names,
    pub tap: TapLines,
    pub registers: Registers,
    pub codes: Codes,
    pub pins: Pins,
}
