// What tables are searched for.
use bsdl_lexicon::NameKey;

/// A bit of a wire: the number of the wire's name, and the bit's index, if the wire has a range.
#[derive(Clone, Copy, PartialEq, Eq, Hash)]
pub struct WireKey {
    pub number: u32,
    pub index: Option<u32>,
}

/// A name that a line gives.
#[derive(Clone, Copy, PartialEq, Eq, Hash)]
pub enum GivenKey<'a> {
    Register(NameKey<'a>),
    Instruction(NameKey<'a>),
}

/// An opcode.
#[derive(Clone, Copy, PartialEq, Eq, Hash)]
pub struct PatternKey {
    pub len: u32,
    pub value: u32,
}
