ghost use Rattle.std.specs.Prelude.{◌≡◌};
ghost use Rattle.scan_vectors.specs.Grammar.{act_of, pin_of, value_of};

use crate::{Act, Line};
use signal_values::PinSig;

/// What an event line does, the word of its pin, and its value.
#[derive(Drop)]
pub struct Parts<'a> {
    pub act: Act,
    pub word: &'a [u8],
    pub value: PinSig,
}

/// The parts of an event line.
pub fn parts_of(line: &Line) -> Parts<'_>
    ensures act { result.act ≡ act_of line.now }
    ensures word { result.word.now ≡ pin_of line.now }
    ensures value { result.value ≡ value_of line.now }
{
    let (act, pin, value) = match line {
        Line::Start { pin, value } => (Act::Start, pin, *value),
        Line::Set { pin, value } => (Act::Set, pin, *value),
        Line::Expect { pin, value } => (Act::Expect, pin, *value),
    };
    Parts {
        act,
        word: pin.as_bytes(),
        value,
    }
}
