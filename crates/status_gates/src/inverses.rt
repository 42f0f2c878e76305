// The inverses of the latched opcode's bits.

ghost use Rattle.std.specs.Prelude.{◌≡◌, [], ◌∷◌, ◌+◌, ◌<◌, ◌≤◌, length};
ghost use Rattle.netlist_model.specs.declared.Feed.TheVariants.{Net};
ghost use Rattle.netlist_model.specs.Lists.{cell_count};
ghost use Rattle.netlist_model.specs.Contained.{IsDense};
ghost use Rattle.gate_parts.specs.Appended.{Appended};
ghost use Rattle.gate_parts.specs.Parts.{part_cells};
ghost use Rattle.register_gates.specs.declared.ident.TheConstants.{INVERSE};
ghost use Rattle.status_gates.specs.Opcodes.{inverses_cells};

use gate_parts::{add_part, appended_count, appended_none};
use netlist_arena::Netlist;
use netlist_model::{Feed, NetId};
use register_gates::{INVERSE, added_in_turn};

// Adds the inverse of one bit.
fn add_inverse(netlist: &mut Netlist, bit: NetId)
    requires dense { IsDense netlist.old.lists }
    requires nets { 1 ≤ netlist.old.spare.nets }
    requires cells { 1 ≤ netlist.old.spare.cells }
    requires bit { bit.0 < length netlist.old.lists.nets }
    ensures added { Appended netlist.old netlist.new 1
        (part_cells INVERSE (Net bit ∷ []) (length netlist.old.lists.nets) (cell_count netlist.old.lists)) }
    ensures dense { IsDense netlist.new.lists }
{
    let _inverse = add_part(netlist, &INVERSE, &[Feed::Net(bit)]);
}

/// Adds to a dense netlist the inverses of so many bits on nets from `opcode` on, one behind another.
pub fn add_inverses(netlist: &mut Netlist, opcode: NetId, count: u32)
    requires dense { IsDense netlist.old.lists }
    requires nets { count ≤ netlist.old.spare.nets }
    requires cells { count ≤ netlist.old.spare.cells }
    requires opcode { opcode.0 + count ≤ length netlist.old.lists.nets }
    ensures added { Appended netlist.old netlist.new count
        (inverses_cells (length netlist.old.lists.nets) (cell_count netlist.old.lists) opcode.0 count) }
    ensures dense { IsDense netlist.new.lists }
{
    appended_none();
    appended_count();
    added_in_turn();
    let _nets = netlist.net_count();
    for place in 0..count {
        add_inverse(netlist, NetId(opcode.0 + place));
    }
}
