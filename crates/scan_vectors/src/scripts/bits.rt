// The bits that words name, with what the rules look at.
ghost use Rattle.std.specs.Prelude.{◌≡◌, ◌<◌, ℕ, List, MatchOption, IsSome, length};
ghost use Rattle.netlist_model.specs.declared.PinBit.{PinBit};
ghost use Rattle.scan_vectors.specs.Pins.{Names, net_of};
ghost use Rattle.scan_vectors.specs.Starts.{IsWordBit, gives, is_known, shows, suits, takes};

use crate::Act;
use netlist_link::Linked;
use netlist_model::laws::direction_of_a_bit;
use netlist_model::{Dir, NetId, PinBit};
use signal_values::PinSig;

/// A bit of a port: its net, its side, and whether it is a control port.
#[derive(Clone, Copy)]
pub struct Bit {
    pub pin: PinBit,
    pub net: NetId,
    pub side: Dir,
    pub control: bool,
}

/// The bit that a word names.
pub fn find_bit(linked: &Linked, word: &[u8]) -> Option<Bit>
    ensures { MatchOption result ((pin : PinBit) → Names linked.now word.now pin
        → ⊥) (IsWordBit linked.now word.now) }
{
    match linked.find_pin(word) {
        Some(pin) => Some(bit_at(linked, pin)),
        None => None,
    }
}

// The bit with what the rules look at.
fn bit_at(linked: &Linked, pin: PinBit) -> Bit
    requires { (word : List ℕ) × Names linked.now word pin }
    ensures pin { result.pin ≡ pin }
    ensures same { (word : List ℕ) → Names linked.now word pin
        → ((other : PinBit) → Names linked.now word other → other ≡ pin)
        → IsWordBit linked.now word result }
{
    direction_of_a_bit();
    let netlist = linked.netlist();
    netlist.is_laid_out();
    let net = netlist.pin_net(pin);
    Bit {
        pin,
        net,
        side: netlist.port_dir(pin.port),
        control: linked.is_control(net),
    }
}

// Whether a bit on this side takes a value.
fn takes(side: Dir) -> bool
    ensures { result ≡ takes side }
{
    match side {
        Dir::Input | Dir::Inout => true,
        Dir::Output => false,
    }
}

// Whether a value is 0 or 1.
fn is_known(value: PinSig) -> bool
    ensures { result ≡ is_known value }
{
    match value {
        PinSig::Zero | PinSig::One => true,
        PinSig::Unknown | PinSig::HighZ => false,
    }
}

// Whether a bit may be given a value.
fn gives(side: Dir, control: bool, value: PinSig) -> bool
    ensures { result ≡ gives side control value }
{
    takes(side) && (!control || is_known(value))
}

// Whether a bit on this side may be expected.
fn shows(side: Dir) -> bool
    ensures { result ≡ shows side }
{
    match side {
        Dir::Input => false,
        Dir::Inout | Dir::Output => true,
    }
}

/// Whether a line may do this with a bit, whatever came before.
pub fn suits(act: Act, bit: &Bit, value: PinSig) -> bool
    ensures { result ≡ suits act bit.now.side bit.now.control value }
{
    match act {
        Act::Start | Act::Set => gives(bit.side, bit.control, value),
        Act::Expect => shows(bit.side),
    }
}
