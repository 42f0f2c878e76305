use signal_values::PinSig;
use texts::{Row, Text};

/// What an event line does with its pin.
#[derive(Clone, Copy, PartialEq, Eq)]
pub enum Act {
    Start,
    Set,
    Expect,
}

/// An event line; the pin is the word as it stands in the text.
#[derive(Drop)]
pub enum Line {
    Start { pin: Text, value: PinSig },
    Set { pin: Text, value: PinSig },
    Expect { pin: Text, value: PinSig },
}

/// The event lines of a text, the number of each, and the number of the line after the text's last. Lines are counted
/// from 1, those that are skipped too.
#[derive(Drop)]
pub struct Lines {
    pub list: Row<Line>,
    pub numbers: Row<u64>,
    pub end: u64,
}
