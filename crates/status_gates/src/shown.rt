// The bit that goes to TDO.

ghost use Rattle.std.specs.Prelude.{◌≡◌, ◌<◌, ◌≤◌, length};
ghost use Rattle.netlist_model.specs.Lists.{cell_count};
ghost use Rattle.netlist_model.specs.Contained.{IsDense};
ghost use Rattle.gate_parts.specs.Appended.{Appended};
ghost use Rattle.gate_parts.specs.Parts.{part_cells};
ghost use Rattle.status_gates.specs.declared.TheConstants.{SHOWN};
ghost use Rattle.status_gates.specs.Shown.{shown_given};

use crate::SHOWN;
use gate_parts::add_part;
use netlist_arena::Netlist;
use netlist_model::{Feed, NetId};

/// Adds to a dense netlist what has a register's bit nearest TDO while the register is on, and else the bit that is
/// shown behind it; and answers its net.
pub fn add_shown(netlist: &mut Netlist, behind: NetId, near: NetId, on: NetId) -> NetId
    requires dense { IsDense netlist.old.lists }
    requires nets { 1 ≤ netlist.old.spare.nets }
    requires cells { 1 ≤ netlist.old.spare.cells }
    requires behind { behind.0 < length netlist.old.lists.nets }
    requires near { near.0 < length netlist.old.lists.nets }
    requires on { on.0 < length netlist.old.lists.nets }
    ensures net { result.0 ≡ length netlist.old.lists.nets }
    ensures added { Appended netlist.old netlist.new 1
        (part_cells SHOWN (shown_given behind near on) (length netlist.old.lists.nets) (cell_count netlist.old.lists)) }
    ensures dense { IsDense netlist.new.lists }
{
    let given = [Feed::Net(behind), Feed::Net(near), Feed::Net(on)];
    add_part(netlist, &SHOWN, &given)
}
