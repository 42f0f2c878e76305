// The latched opcode on nets one behind another.

ghost use Rattle.std.specs.Prelude.{◌≡◌, ◌+◌, ◌*◌, ◌≤◌, length};
ghost use Rattle.netlist_model.specs.Lists.{cell_count};
ghost use Rattle.netlist_model.specs.Contained.{IsDense};
ghost use Rattle.gate_parts.specs.Appended.{Appended};
ghost use Rattle.instruction_gates.specs.Copies.{copies_cells};

use cell_library::Kind;
use gate_parts::{Gate, Pin, Pins, add_part, appended_count, appended_none};
use netlist_arena::Netlist;
use netlist_model::{Feed, NetId};
use register_gates::added_in_turn;

/// A latched bit once more. Handed in is the bit.
pub const COPY: [Gate; 1] = [
    Gate {
        kind: Kind::Buf,
        pins: Pins::One(Pin::Given(0)),
    }, // 0: the same
];

/// Adds to a dense netlist copies of so many latched bits on nets from `latches` on, one behind another, the bit
/// nearest TDO first.
pub fn add_copies(netlist: &mut Netlist, latches: NetId, count: u32)
    requires dense { IsDense netlist.old.lists }
    requires nets { count ≤ netlist.old.spare.nets }
    requires cells { count ≤ netlist.old.spare.cells }
    requires latches { latches.0 + 3 * count ≤ length netlist.old.lists.nets }
    ensures added { Appended netlist.old netlist.new count
        (copies_cells (length netlist.old.lists.nets) (cell_count netlist.old.lists) latches.0 count) }
    ensures dense { IsDense netlist.new.lists }
{
    appended_none();
    appended_count();
    added_in_turn();
    if count == 0 {
        return;
    }
    let _nets = netlist.net_count();
    let behind = count - 1;
    let _copy = add_part(
        netlist,
        &COPY,
        &[Feed::Net(NetId(latches.0 + 3 * behind + 1))],
    );
    add_copies(netlist, latches, behind);
}
