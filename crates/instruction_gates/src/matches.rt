// Whether the latched opcode is a certain one.

ghost use Rattle.std.specs.Prelude.{◌≡◌, ◌+◌, ◌*◌, ◌<◌, ◌≤◌, ◌^◌, length};
ghost use Rattle.netlist_model.specs.Lists.{cell_count};
ghost use Rattle.netlist_model.specs.Contained.{IsDense};
ghost use Rattle.netlist_model.specs.Below.{IsFeedBelow};
ghost use Rattle.gate_parts.specs.Appended.{Appended};
ghost use Rattle.instruction_gates.specs.Matches.{match_cells, matches_cells, match_before};

use crate::is_one;
use cell_library::Kind;
use gate_parts::{Gate, Pin, Pins, add_part, appended_count, appended_none};
use netlist_arena::Netlist;
use netlist_model::{Feed, NetId};
use register_gates::added_in_turn;

/// Whether a latched bit and those behind it are those of an opcode. Handed in are whether those behind it are, the
/// latched bit, and the opcode's bit.
pub const EQUAL_BIT: [Gate; 2] = [
    Gate {
        kind: Kind::And,
        pins: Pins::Two(Pin::Own(1), Pin::Given(0)),
    }, // 0: this one and those behind it
    Gate {
        kind: Kind::Xnor,
        pins: Pins::Two(Pin::Given(1), Pin::Given(2)),
    }, // 1: this one
];

// Adds the gates for one bit.
fn add_equal(netlist: &mut Netlist, before: Feed, latch: NetId, wanted: Feed) -> NetId
    requires dense { IsDense netlist.old.lists }
    requires nets { 2 ≤ netlist.old.spare.nets }
    requires cells { 2 ≤ netlist.old.spare.cells }
    requires before { IsFeedBelow (length netlist.old.lists.nets) before }
    requires latch { latch.0 < length netlist.old.lists.nets }
    ensures first { result.0 ≡ length netlist.old.lists.nets }
    ensures added { Appended netlist.old netlist.new 2
        (match_cells before latch.0 (length netlist.old.lists.nets) (cell_count netlist.old.lists) wanted) }
    ensures dense { IsDense netlist.new.lists }
{
    let given = [before, Feed::Net(latch), Feed::Const(is_one(wanted))];
    add_part(netlist, &EQUAL_BIT, &given)
}

/// Adds to a dense netlist what tells whether the latched bits on nets from `latches` on are these, and answers it.
pub fn add_match(netlist: &mut Netlist, latches: NetId, wanted: &[Feed]) -> Feed
    requires dense { IsDense netlist.old.lists }
    requires nets { 2 * length wanted.now ≤ netlist.old.spare.nets }
    requires cells { 2 * length wanted.now ≤ netlist.old.spare.cells }
    requires latches { latches.0 + 3 * length wanted.now ≤ length netlist.old.lists.nets }
    ensures told { result ≡ match_before (length netlist.old.lists.nets) (length wanted.now) }
    ensures added { Appended netlist.old netlist.new (2 * length wanted.now)
        (matches_cells (length netlist.old.lists.nets) (cell_count netlist.old.lists) latches.0 wanted.now) }
    ensures dense { IsDense netlist.new.lists }
{
    appended_none();
    appended_count();
    added_in_turn();
    let _first = netlist.net_count();
    let mut told = Feed::Const(true);
    for place in (0..wanted.len()).rev() {
        let behind = (wanted.len() - 1 - place) as u32;
        let equal = add_equal(
            netlist,
            told,
            NetId(latches.0 + 3 * behind + 1),
            wanted[place],
        );
        told = Feed::Net(equal);
    }
    told
}
