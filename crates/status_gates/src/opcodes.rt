// Whether an opcode is latched.

ghost use Rattle.std.specs.Prelude.{◌≡◌, [], ◌∷◌, ◌+◌, ◌<◌, ◌≤◌, length};
ghost use Rattle.netlist_model.specs.Lists.{cell_count};
ghost use Rattle.netlist_model.specs.Contained.{IsDense};
ghost use Rattle.netlist_model.specs.Below.{IsFeedBelow};
ghost use Rattle.gate_parts.specs.Appended.{Appended};
ghost use Rattle.gate_parts.specs.Parts.{part_cells};
ghost use Rattle.instruction_gates.specs.Rows as rows;
ghost use Rattle.status_gates.specs.declared.TheConstants.{BOTH};
ghost use Rattle.status_gates.specs.Opcodes as model;

use crate::BOTH;
use gate_parts::{add_part, appended_count, appended_none};
use netlist_arena::Netlist;
use netlist_model::{Feed, NetId};
use register_gates::added_in_turn;

// The bit, or its inverse where the opcode's is 0.
fn literal(wanted: Feed, opcode: NetId, inverse: NetId) -> Feed
    ensures { result ≡ model.literal (rows.is_one wanted) opcode.0 inverse.0 }
{
    match wanted {
        Feed::Const(true) => Feed::Net(opcode),
        _ => Feed::Net(inverse),
    }
}

// Adds the gate for one bit.
fn add_both(netlist: &mut Netlist, this: Feed, told: Feed) -> NetId
    requires dense { IsDense netlist.old.lists }
    requires nets { 1 ≤ netlist.old.spare.nets }
    requires cells { 1 ≤ netlist.old.spare.cells }
    requires this { IsFeedBelow (length netlist.old.lists.nets) this }
    requires told { IsFeedBelow (length netlist.old.lists.nets) told }
    ensures first { result.0 ≡ length netlist.old.lists.nets }
    ensures added { Appended netlist.old netlist.new 1
        (part_cells BOTH (this ∷ told ∷ []) (length netlist.old.lists.nets) (cell_count netlist.old.lists)) }
    ensures dense { IsDense netlist.new.lists }
{
    add_part(netlist, &BOTH, &[this, told])
}

/// Adds to a dense netlist what tells whether the bits on nets from `opcode` on, whose inverses stand on nets from
/// `inverses` on, are these, and answers it. For n bits it takes n cells and nets of the room that is there.
pub fn add_opcode(netlist: &mut Netlist, opcode: NetId, inverses: NetId, wanted: &[Feed]) -> Feed
    requires dense { IsDense netlist.old.lists }
    requires nets { length wanted.now ≤ netlist.old.spare.nets }
    requires cells { length wanted.now ≤ netlist.old.spare.cells }
    requires opcode { opcode.0 + length wanted.now ≤ length netlist.old.lists.nets }
    requires inverses { inverses.0 + length wanted.now ≤ length netlist.old.lists.nets }
    ensures told { result ≡ model.told_feed (length netlist.old.lists.nets) wanted.now }
    ensures added { Appended netlist.old netlist.new (length wanted.now)
        (model.opcode_cells (length netlist.old.lists.nets) (cell_count netlist.old.lists) opcode.0 inverses.0 wanted.now) }
    ensures dense { IsDense netlist.new.lists }
{
    appended_none();
    appended_count();
    added_in_turn();
    let _nets = netlist.net_count();
    let mut told = Feed::Const(true);
    for place in (0..wanted.len()).rev() {
        let bit = place as u32;
        let this = literal(
            wanted[place],
            NetId(opcode.0 + bit),
            NetId(inverses.0 + bit),
        );
        let both = add_both(netlist, this, told);
        told = Feed::Net(both);
    }
    told
}
