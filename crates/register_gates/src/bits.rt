// One bit of a register as gates: a bit of a shift stage, and one that is held behind it.
// Contracts cite specs/Bits.antt for the cells and specs/BitsLaws.antt for what they do in every netlist
// that contains them.
// IEEE Std 1149.1-2001: instruction register, test data registers.
//
// - `add_shift_bit`, `add_held_bit` and `add_shift_chain` append exactly their cells and use just so much room: 3,
//   2, and 3 for each bit.
// - In every well-formed netlist that contains the cells: where TRST is 0 the bits are cleared, or preset; a
//   rising edge of TCK captures, shifts or keeps, a falling edge loads or keeps, as the nets that steer say; a
//   chain moves as its list does, with TDI at the end.
// By the contract of these calls and its law functions.

ghost use Rattle.std.specs.Prelude.{◌≡◌, ◌+◌, ◌<◌, ◌≤◌, ◌^◌, length};
ghost use Rattle.netlist_model.specs.Lists.{cell_count};
ghost use Rattle.netlist_model.specs.Contained.{IsDense};
ghost use Rattle.netlist_model.specs.Below.{IsFeedBelow};
ghost use Rattle.gate_parts.specs.Appended.{Appended};
ghost use Rattle.register_gates.specs.Bits.{shift_bit_cells, held_bit_cells, AreNetsBelow};

mod chain;
mod laws;

use cell_library::{Edge, FlopKind, Kind, ResetTo};
pub use chain::add_shift_chain;
use gate_parts::{Gate, Pin, Pins, add_part};
pub use laws::{chains_follow, held_bits_follow, shift_bits_follow};
use netlist_arena::Netlist;
use netlist_model::{Feed, NetId};

/// What steers the bits of a shift stage: TCK, TRST, and nets that are 1 exactly where the register captures, and where
/// it shifts, on the next rising edge of TCK.
#[derive(Clone, Copy)]
pub struct Steering {
    pub tck: NetId,
    pub trst: NetId,
    pub capture: NetId,
    pub shift: NetId,
}

/// What steers bits that are held: TCK, TRST, and a net that is 1 exactly where they load on the next
/// falling edge of TCK.
#[derive(Clone, Copy)]
pub struct Holding {
    pub tck: NetId,
    pub trst: NetId,
    pub load: NetId,
}

const SHIFTS: FlopKind = FlopKind {
    edge: Edge::Rise,
    reset: ResetTo::Zero,
};

const CLEARED: FlopKind = FlopKind {
    edge: Edge::Fall,
    reset: ResetTo::Zero,
};

const PRESET: FlopKind = FlopKind {
    edge: Edge::Fall,
    reset: ResetTo::One,
};

/// A bit of a shift stage. Handed in are TCK, TRST, capture, shift, what it captures, and the next bit towards TDI.
pub const SHIFT_BIT: [Gate; 3] = [
    Gate {
        kind: Kind::Flop(SHIFTS),
        pins: Pins::Three(Pin::Own(1), Pin::Given(0), Pin::Given(1)),
    }, // 0: the bit
    Gate {
        kind: Kind::Mux2,
        pins: Pins::Three(Pin::Own(2), Pin::Given(4), Pin::Given(2)),
    }, // 1: what it captures, where the register captures
    Gate {
        kind: Kind::Mux2,
        pins: Pins::Three(Pin::Own(0), Pin::Given(5), Pin::Given(3)),
    }, // 2: else the next bit, where it shifts
];

/// A bit that is held, and that TRST clears. Handed in are TCK, TRST, load, and what it loads.
pub const CLEARED_BIT: [Gate; 2] = [
    Gate {
        kind: Kind::Flop(CLEARED),
        pins: Pins::Three(Pin::Own(1), Pin::Given(0), Pin::Given(1)),
    }, // 0: the bit
    Gate {
        kind: Kind::Mux2,
        pins: Pins::Three(Pin::Own(0), Pin::Given(3), Pin::Given(2)),
    }, // 1: what it loads, where it loads
];

/// A bit that is held, and that TRST presets.
pub const PRESET_BIT: [Gate; 2] = [
    Gate {
        kind: Kind::Flop(PRESET),
        pins: Pins::Three(Pin::Own(1), Pin::Given(0), Pin::Given(1)),
    }, // 0: the bit
    Gate {
        kind: Kind::Mux2,
        pins: Pins::Three(Pin::Own(0), Pin::Given(3), Pin::Given(2)),
    }, // 1: what it loads, where it loads
];

/// Adds a bit of a shift stage to a dense netlist, and answers its net.
pub fn add_shift_bit(
    netlist: &mut Netlist,
    steering: &Steering,
    captured: Feed,
    next: NetId,
) -> NetId
    requires dense { IsDense netlist.old.lists }
    requires nets { 3 ≤ netlist.old.spare.nets }
    requires cells { 3 ≤ netlist.old.spare.cells }
    requires steering { AreNetsBelow (length netlist.old.lists.nets) steering.now.tck steering.now.trst }
    requires steps { AreNetsBelow (length netlist.old.lists.nets) steering.now.capture
        steering.now.shift }
    requires captured { IsFeedBelow (length netlist.old.lists.nets) captured }
    requires next { next.0 < length netlist.old.lists.nets }
    ensures first { result.0 ≡ length netlist.old.lists.nets }
    ensures fits { result.0 + 3 < 2 ^ 32 }
    ensures added { Appended netlist.old netlist.new 3
        (shift_bit_cells (length netlist.old.lists.nets) (cell_count netlist.old.lists) steering.now captured next) }
    ensures dense { IsDense netlist.new.lists }
{
    let given = [
        Feed::Net(steering.tck),
        Feed::Net(steering.trst),
        Feed::Net(steering.capture),
        Feed::Net(steering.shift),
        captured,
        Feed::Net(next),
    ];
    add_part(netlist, &SHIFT_BIT, &given)
}

/// Adds a bit that is held to a dense netlist, which TRST presets or clears, and answers its net.
pub fn add_held_bit(netlist: &mut Netlist, holding: &Holding, preset: bool, loaded: Feed) -> NetId
    requires dense { IsDense netlist.old.lists }
    requires nets { 2 ≤ netlist.old.spare.nets }
    requires cells { 2 ≤ netlist.old.spare.cells }
    requires holding { AreNetsBelow (length netlist.old.lists.nets) holding.now.tck holding.now.trst }
    requires load { holding.now.load.0 < length netlist.old.lists.nets }
    requires loaded { IsFeedBelow (length netlist.old.lists.nets) loaded }
    ensures first { result.0 ≡ length netlist.old.lists.nets }
    ensures fits { result.0 + 2 < 2 ^ 32 }
    ensures added { Appended netlist.old netlist.new 2
        (held_bit_cells (length netlist.old.lists.nets) (cell_count netlist.old.lists) holding.now preset loaded) }
    ensures dense { IsDense netlist.new.lists }
{
    let given = [
        Feed::Net(holding.tck),
        Feed::Net(holding.trst),
        Feed::Net(holding.load),
        loaded,
    ];
    if preset {
        add_part(netlist, &PRESET_BIT, &given)
    } else {
        add_part(netlist, &CLEARED_BIT, &given)
    }
}
