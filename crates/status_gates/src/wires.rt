// A data register that captures nets.

ghost use Rattle.std.specs.Prelude.{◌≡◌, ◌+◌, ◌*◌, ◌<◌, ◌≤◌, take, length, All};
ghost use Rattle.netlist_model.specs.Lists.{cell_count};
ghost use Rattle.netlist_model.specs.Contained.{IsDense};
ghost use Rattle.netlist_model.specs.Below.{IsNetBelow};
ghost use Rattle.gate_parts.specs.Appended.{Appended};
ghost use Rattle.register_gates.specs.Bits.{AreNetsBelow};
ghost use Rattle.register_gates.specs.Registers.{data_cells, data_last};
ghost use Rattle.status_gates.specs.Wires.{net_feeds};

use netlist_arena::Netlist;
use netlist_model::{Feed, NetId};
use register_gates::add_data;
use test_logic::TapNets;

// The nets as operands, in the first places.
fn feeds_of(nets: &[NetId]) -> [Feed; 256]
    requires { length nets.now ≤ 256 }
    ensures { take (length nets.now) result ≡ net_feeds nets.now }
{
    let mut feeds = [Feed::Const(false); 256];
    for place in 0..nets.len() {
        feeds[place] = Feed::Net(nets[place]);
    }
    feeds
}

/// Adds a register to a dense netlist that captures these nets, the first of which is nearest TDO, while `on` is 1, and
/// answers the net of the bit nearest TDO. For n nets it takes 2 + 3 n cells and nets of the room that is there.
pub fn add_wires(
    netlist: &mut Netlist,
    tap: &TapNets,
    on: NetId,
    tdi: NetId,
    nets: &[NetId],
) -> NetId
    requires dense { IsDense netlist.old.lists }
    requires few { length nets.now ≤ 256 }
    requires net_room { 2 + 3 * length nets.now ≤ netlist.old.spare.nets }
    requires cell_room { 2 + 3 * length nets.now ≤ netlist.old.spare.cells }
    requires clock { AreNetsBelow (length netlist.old.lists.nets) tap.now.tck tap.now.trst }
    requires steps { AreNetsBelow (length netlist.old.lists.nets) tap.now.capture_dr tap.now.shift_dr }
    requires on { on.0 < length netlist.old.lists.nets }
    requires tdi { tdi.0 < length netlist.old.lists.nets }
    requires nets { All (IsNetBelow (length netlist.old.lists.nets)) nets.now }
    ensures last { result ≡ data_last (length netlist.old.lists.nets) tdi (net_feeds nets.now) }
    ensures added { Appended netlist.old netlist.new (2 + 3 * length nets.now)
        (data_cells (length netlist.old.lists.nets) (cell_count netlist.old.lists) tap.now on tdi (net_feeds nets.now)) }
    ensures dense { IsDense netlist.new.lists }
{
    let feeds = feeds_of(nets);
    add_data(netlist, tap, on, tdi, &feeds[..nets.len()])
}
