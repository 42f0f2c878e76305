// The flip-flops of TDO and its driver.

ghost use Rattle.std.specs.Prelude.{◌≡◌, ◌<◌, ◌≤◌, length};
ghost use Rattle.netlist_model.specs.Lists.{cell_count};
ghost use Rattle.netlist_model.specs.Contained.{IsDense};
ghost use Rattle.netlist_arena.specs.Adds.{IsFree};
ghost use Rattle.gate_parts.specs.Appended.{Appended};
ghost use Rattle.register_gates.specs.Bits.{AreNetsBelow};
ghost use Rattle.register_gates.specs.Tdo.{AreIdentBelow, ident_feed, tdo_cells};

use cell_library::{Edge, FlopKind, Kind, ResetTo};
use gate_parts::{
    Gate, Pin, Pins, add_driver, add_part, appended_count, appended_more, part_leaves_free_nets,
};
use netlist_arena::Netlist;
use netlist_model::{Feed, NetId};
use tap_gates::lower_test_logic::{InstrNets, TapNets};

const CLEARED: FlopKind = FlopKind {
    edge: Edge::Fall,
    reset: ResetTo::Zero,
};

/// What TDO gives. Handed in are TCK, TRST, Shift-DR, Shift-IR, the bit of the instruction register, whether the bypass
/// register and the identification register are selected, and the bits of these two and of the boundary register.
pub const TDO: [Gate; 6] = [
    Gate {
        kind: Kind::Flop(CLEARED),
        pins: Pins::Three(Pin::Own(2), Pin::Given(0), Pin::Given(1)),
    }, // 0: the bit
    Gate {
        kind: Kind::Flop(CLEARED),
        pins: Pins::Three(Pin::Own(5), Pin::Given(0), Pin::Given(1)),
    }, // 1: whether it is driven
    Gate {
        kind: Kind::Mux2,
        pins: Pins::Three(Pin::Own(3), Pin::Given(4), Pin::Given(3)),
    }, // 2: the instruction register's, in Shift-IR
    Gate {
        kind: Kind::Mux2,
        pins: Pins::Three(Pin::Own(4), Pin::Given(8), Pin::Given(6)),
    }, // 3: else the identification register's, where it is selected
    Gate {
        kind: Kind::Mux2,
        pins: Pins::Three(Pin::Given(9), Pin::Given(7), Pin::Given(5)),
    }, // 4: else the bypass register's, where it is selected, or the boundary register's
    Gate {
        kind: Kind::Or,
        pins: Pins::Two(Pin::Given(2), Pin::Given(3)),
    }, // 5: in Shift-DR and Shift-IR
];

// The operand for the identification register's bit; 0 where there is none.
fn feed_of_ident(ident: Option<NetId>) -> Feed
    ensures { result ≡ ident_feed ident }
{
    match ident {
        Some(net) => Feed::Net(net),
        None => Feed::Const(false),
    }
}

/// Adds what drives TDO to a dense netlist, on a net that nothing drives, from the bits of the registers that
/// are nearest it. A device without an identification register hands in none. It takes 7 cells and 6 nets of the
/// room that is there.
pub fn add_tdo(
    netlist: &mut Netlist,
    tap: &TapNets,
    instruction: &InstrNets,
    bypass: NetId,
    ident: Option<NetId>,
    boundary: NetId,
    tdo: NetId,
)
    requires dense { IsDense netlist.old.lists }
    requires nets { 6 ≤ netlist.old.spare.nets }
    requires cells { 7 ≤ netlist.old.spare.cells }
    requires clock { AreNetsBelow (length netlist.old.lists.nets) tap.now.tck tap.now.trst }
    requires steps { AreNetsBelow (length netlist.old.lists.nets) tap.now.shift_dr tap.now.shift_ir }
    requires selections { AreNetsBelow (length netlist.old.lists.nets) instruction.now.bypass_on
        instruction.now.ident_on }
    requires last { instruction.now.last.0 < length netlist.old.lists.nets }
    requires bits { AreNetsBelow (length netlist.old.lists.nets) bypass boundary }
    requires ident { AreIdentBelow (length netlist.old.lists.nets) ident }
    requires there { tdo.0 < length netlist.old.lists.nets }
    requires free { IsFree netlist.old.lists tdo.0 }
    ensures added { Appended netlist.old netlist.new 6 (tdo_cells (length netlist.old.lists.nets)
        (cell_count netlist.old.lists) tap.now instruction.now bypass ident boundary tdo) }
    ensures dense { IsDense netlist.new.lists }
{
    appended_count();
    appended_more();
    part_leaves_free_nets();
    let ident_bit = feed_of_ident(ident);
    let given = [
        Feed::Net(tap.tck),
        Feed::Net(tap.trst),
        Feed::Net(tap.shift_dr),
        Feed::Net(tap.shift_ir),
        Feed::Net(instruction.last),
        Feed::Net(instruction.bypass_on),
        Feed::Net(instruction.ident_on),
        Feed::Net(bypass),
        ident_bit,
        Feed::Net(boundary),
    ];
    let bits = add_part(netlist, &TDO, &given);
    let feeds = [Feed::Net(bits), Feed::Net(NetId(bits.0 + 1))];
    add_driver(netlist, Kind::Bufif1, &feeds, tdo);
}
