// What tables are searched for.
use bsdl_lexicon::NameKey;

/// A bit of a port.
#[derive(Clone, Copy, PartialEq, Eq, Hash)]
pub struct BitKey {
    pub port: u32,
    pub bit: u32,
}

/// What a line takes: a physical pin, or a bit of a port.
#[derive(Clone, Copy, PartialEq, Eq, Hash)]
pub enum TakenKey<'a> {
    PhysicalPin(NameKey<'a>),
    PortBit(BitKey),
}
