use verilog_lexicon::lower_texts::{Row, Text};

/// The direction of a port.
#[derive(Clone, Copy, Drop, PartialEq, Eq)]
pub enum Dir {
    Input,
    Output,
    Inout,
}

/// The range of a vector, `[left:right]`, in either direction; each bound is below 10^9.
#[derive(Clone, Copy, Drop, PartialEq, Eq)]
pub struct Range {
    pub left: u32,
    pub right: u32,
}

/// A port with its direction; a scalar has no range.
#[derive(Drop)]
pub struct Port {
    pub name: Text,
    pub dir: Dir,
    pub range: Option<Range>,
}

/// A wire that is no port; a scalar has no range.
#[derive(Drop)]
pub struct Wire {
    pub name: Text,
    pub range: Option<Range>,
}

/// The gate primitives of the profile.
#[derive(Clone, Copy, Drop, PartialEq, Eq)]
pub enum GateKind {
    And,
    Or,
    Nand,
    Nor,
    Xor,
    Xnor,
    Buf,
    Not,
    Bufif0,
    Bufif1,
}

/// A scalar net, a one-bit vector by its name alone, or the bit of a vector that has the index.
#[derive(Drop)]
pub struct Bit {
    pub net: Text,
    pub index: Option<u32>,
}

/// What a cell reads.
#[derive(Drop)]
pub enum Operand {
    Bit(Bit),
    Const(bool),
}

/// A primitive gate: one input for `buf` and `not`, data and control for `bufif0` and `bufif1`, one or
/// more for the others.
#[derive(Drop)]
pub struct Gate {
    pub kind: GateKind,
    pub name: Option<Text>,
    pub output: Bit,
    pub inputs: Row<Operand>,
}

/// A named connection of a cell's port; an empty one has no operand.
#[derive(Drop)]
pub struct Link {
    pub port: Text,
    pub operand: Option<Operand>,
}

/// A library cell and its named connections.
#[derive(Drop)]
pub struct Instance {
    pub cell: Text,
    pub name: Text,
    pub links: Row<Link>,
}

/// One item of a module; lists of gates, instances and assignments are single items in order.
#[derive(Drop)]
pub enum Item {
    Gate(Gate),
    Instance(Instance),
    Assign { output: Bit, input: Operand },
}

/// A module: its ports in the order of the header, the wires that are no ports, and its items, in order.
#[derive(Drop)]
pub struct Module {
    pub name: Text,
    pub ports: Row<Port>,
    pub wires: Row<Wire>,
    pub items: Row<Item>,
}
