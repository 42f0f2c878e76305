use crate::values::{PortMode, PortRange, Stop};
use word_cutter::lower_texts::{Row, Text};

/// The direction of a range: to greater or to lesser indices.
#[derive(Clone, Copy, Drop, PartialEq, Eq)]
pub enum Direction {
    To,
    Downto,
}

/// `left to right` or `left downto right`
#[derive(Clone, Copy, Drop, PartialEq, Eq)]
pub struct WrittenRange {
    pub left: u32,
    pub direction: Direction,
    pub right: u32,
}

/// `name, name : mode type`; without a range the type is `bit`.
#[derive(Drop)]
pub struct PortDeclaration {
    pub names: Row<Text>,
    pub mode: PortMode,
    pub range: Option<WrittenRange>,
}

/// One name of a declaration, with its mode and its range.
#[derive(Drop)]
pub struct DeclaredPort {
    pub name: Text,
    pub mode: PortMode,
    pub range: Option<PortRange>,
}

/// The ports that the attributes of the scan port name.
#[derive(Drop)]
pub struct TapNames {
    pub tdi: Text,
    pub tms: Text,
    pub tdo: Text,
    pub trst: Text,
    pub tck: Text,
}

/// An attribute whose value is an integer, and the entity that it is of.
#[derive(Drop)]
pub struct IntegerAttribute {
    pub entity: Text,
    pub value: u32,
}

/// An attribute whose value is strings joined by `&`, and the entity that it is of.
#[derive(Drop)]
pub struct StringAttribute {
    pub entity: Text,
    pub strings: Row<Text>,
}

/// A BSDL file as it is written: its sections in their order, names as they are spelled.
#[derive(Drop)]
pub struct File {
    pub entity: Text,
    /// The string of the generic `PHYSICAL_PIN_MAP`.
    pub default_package: Text,
    pub declarations: Row<PortDeclaration>,
    /// The entity that `COMPONENT_CONFORMANCE` is of.
    pub conformance_entity: Text,
    /// The entity that `PIN_MAP` is of.
    pub pin_map_entity: Text,
    /// The constant that is the pin map.
    pub package: Text,
    /// The strings of the pin map.
    pub pin_map: Row<Text>,
    pub tap: TapNames,
    pub clock: Text,
    pub stop: Stop,
    pub length: IntegerAttribute,
    pub opcodes: StringAttribute,
    pub capture: StringAttribute,
    pub idcode: Option<StringAttribute>,
    pub usercode: Option<StringAttribute>,
    pub access: StringAttribute,
    pub boundary_length: IntegerAttribute,
    pub boundary: StringAttribute,
    /// The entity that the file's end names.
    pub end: Text,
}
