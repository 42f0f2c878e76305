// Signal values: 0, 1 and unknown inside a chip, and high impedance besides at a pin.
// The contracts cite specs/Values.antt and, for the laws, specs/Knowledge.antt.
// IEEE Std 1364-2001, the chapter on gate level modelling; reading high impedance as unknown is own.
//
// - `not`, `and`, `or`, `xor`, `mux`, `see`, `pin_of`, `join` and `drive` each give the value of their table, for
//   every pair or triple of values.
// - `show` gives the letter `0`, `1`, `x` or `z`; `read_sig` reads `0 1 x X z Z` and no other byte.
// - Each operation gives at most as much knowledge for less known operands (`operations_keep_order`).
// - Known operands give the known results of Boolean logic; a 0 decides `and`, a 1 decides `or`; under a known
//   select a multiplexer gives that operand (`known_operands_decide`).
// - Drivers may be joined in any order and grouping; an equal or an idle one adds nothing
//   (`join_is_a_meeting_of_drivers`).
// - The letter of a value reads back as that value (`letters_read_back`).
// By the contract of its functions, the law functions among them.
#![tactic(auto)]

ghost use Rattle.std.specs.Prelude.{◌≡◌};
ghost use Rattle.signal_values.specs.Values.{sig_not, sig_and, sig_or, sig_xor, sig_mux, see, pin_of, join, drive, show_byte, pin_sig_of};
ghost use Rattle.signal_values.specs.Knowledge.{IsBelow, IsPinBelow, KeepsOrder, KeepsOrderOfTwo, KeepsOrderOfThree};
ghost use Rattle.signal_values.specs.Known.{NotOfKnown, AndOfKnown, OrOfKnown, XorOfKnown, MuxOfKnownSelect, SeeOfPinOf, DriveOfKnownEnable, AndOfZero, OrOfOne};
ghost use Rattle.signal_values.specs.Joined.{JoinIsCommutative, JoinIsAssociative, JoinOfEqual, JoinOfHighZ, ReadsShown, ReadsOnlyShown};

/// What a net inside a chip carries.
#[derive(Clone, Copy, PartialEq, Eq)]
pub enum Sig {
    Zero,
    One,
    Unknown,
}

/// What a pin carries, or what a driver puts on it.
#[derive(Clone, Copy, Debug, PartialEq, Eq)]
pub enum PinSig {
    Zero,
    One,
    Unknown,
    HighZ,
}

/// The inverse; unknown stays unknown.
pub fn not(a: Sig) -> Sig
    ensures { result ≡ sig_not a }
{
    match a {
        Sig::Zero => Sig::One,
        Sig::One => Sig::Zero,
        Sig::Unknown => Sig::Unknown,
    }
}

/// 0 where either side is 0, even if the other is unknown.
pub fn and(a: Sig, b: Sig) -> Sig
    ensures { result ≡ sig_and a b }
{
    match (a, b) {
        (Sig::Zero, _) | (_, Sig::Zero) => Sig::Zero,
        (Sig::One, Sig::One) => Sig::One,
        _ => Sig::Unknown,
    }
}

/// 1 where either side is 1, even if the other is unknown.
pub fn or(a: Sig, b: Sig) -> Sig
    ensures { result ≡ sig_or a b }
{
    match (a, b) {
        (Sig::One, _) | (_, Sig::One) => Sig::One,
        (Sig::Zero, Sig::Zero) => Sig::Zero,
        _ => Sig::Unknown,
    }
}

/// Whether the sides differ; unknown where either is.
pub fn xor(a: Sig, b: Sig) -> Sig
    ensures { result ≡ sig_xor a b }
{
    match (a, b) {
        (Sig::Unknown, _) | (_, Sig::Unknown) => Sig::Unknown,
        (Sig::Zero, Sig::Zero) | (Sig::One, Sig::One) => Sig::Zero,
        _ => Sig::One,
    }
}

/// `a` where the select `s` is 0, `b` where it is 1. Under an unknown select two ones give unknown.
pub fn mux(s: Sig, a: Sig, b: Sig) -> Sig
    ensures { result ≡ sig_mux s a b }
{
    or(and(a, not(s)), and(b, s))
}

/// A pin as a gate reads it: high impedance reads as unknown.
pub fn see(p: PinSig) -> Sig
    ensures { result ≡ see p }
{
    match p {
        PinSig::Zero => Sig::Zero,
        PinSig::One => Sig::One,
        PinSig::Unknown | PinSig::HighZ => Sig::Unknown,
    }
}

/// The same value at a pin.
pub fn pin_of(s: Sig) -> PinSig
    ensures { result ≡ pin_of s }
{
    match s {
        Sig::Zero => PinSig::Zero,
        Sig::One => PinSig::One,
        Sig::Unknown => PinSig::Unknown,
    }
}

/// Two drivers of equal strength on one wire.
pub fn join(a: PinSig, b: PinSig) -> PinSig
    ensures { result ≡ join a b }
{
    match (a, b) {
        (PinSig::HighZ, other) | (other, PinSig::HighZ) => other,
        (PinSig::Zero, PinSig::Zero) => PinSig::Zero,
        (PinSig::One, PinSig::One) => PinSig::One,
        _ => PinSig::Unknown,
    }
}

/// A driver with an enable, which is active at 1.
pub fn drive(value: Sig, enable: Sig) -> PinSig
    ensures { result ≡ drive value enable }
{
    match enable {
        Sig::One => pin_of(value),
        Sig::Zero => PinSig::HighZ,
        Sig::Unknown => PinSig::Unknown,
    }
}

/// The letter of a value: `0`, `1`, `x` or `z`.
pub fn show(p: PinSig) -> u8
    ensures { result ≡ show_byte p }
{
    match p {
        PinSig::Zero => b'0',
        PinSig::One => b'1',
        PinSig::Unknown => b'x',
        PinSig::HighZ => b'z',
    }
}

/// The value of a letter: `0`, `1`, `x`, `z`, and the last two also as capitals. Else none.
pub fn read_sig(b: u8) -> Option<PinSig>
    ensures { result ≡ pin_sig_of b }
{
    match b {
        b'0' => Some(PinSig::Zero),
        b'1' => Some(PinSig::One),
        b'x' | b'X' => Some(PinSig::Unknown),
        b'z' | b'Z' => Some(PinSig::HighZ),
        _ => None,
    }
}

/// A law: each operation gives at most as much knowledge for less known operands.
pub fn operations_keep_order()
    ensures of_not { KeepsOrder IsBelow IsBelow sig_not }
    ensures of_and { KeepsOrderOfTwo IsBelow IsBelow IsBelow sig_and }
    ensures of_or { KeepsOrderOfTwo IsBelow IsBelow IsBelow sig_or }
    ensures of_xor { KeepsOrderOfTwo IsBelow IsBelow IsBelow sig_xor }
    ensures of_mux { KeepsOrderOfThree IsBelow IsBelow sig_mux }
    ensures of_see { KeepsOrder IsPinBelow IsBelow see }
    ensures of_pin_of { KeepsOrder IsBelow IsPinBelow pin_of }
    ensures of_join { KeepsOrderOfTwo IsPinBelow IsPinBelow IsPinBelow join }
    ensures of_drive { KeepsOrderOfTwo IsBelow IsBelow IsPinBelow drive }
{}

/// A law: known operands give known results, and these; one known operand can decide.
pub fn known_operands_decide()
    ensures of_not { NotOfKnown }
    ensures of_and { AndOfKnown }
    ensures of_or { OrOfKnown }
    ensures of_xor { XorOfKnown }
    ensures of_and_zero { AndOfZero }
    ensures of_or_one { OrOfOne }
    ensures of_mux { MuxOfKnownSelect }
    ensures of_pin { SeeOfPinOf }
    ensures of_drive { DriveOfKnownEnable }
{}

/// A law: drivers of one wire may be joined in any order, and an idle one adds nothing.
pub fn join_is_a_meeting_of_drivers()
    ensures commutative { JoinIsCommutative }
    ensures associative { JoinIsAssociative }
    ensures of_equal { JoinOfEqual }
    ensures of_high_z { JoinOfHighZ }
{}

/// A law: the letter of a value reads as that value, and each letter that reads is one of six.
pub fn letters_read_back()
    ensures shown { ReadsShown }
    ensures only { ReadsOnlyShown }
{}
