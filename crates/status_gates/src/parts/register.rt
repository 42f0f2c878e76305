// The gates of one register.

ghost use Rattle.std.specs.Prelude.{◌≡◌, ◌<◌, ◌≤◌, length};
ghost use Rattle.netlist_model.specs.Lists.{cell_count};
ghost use Rattle.netlist_model.specs.Contained.{IsDense};
ghost use Rattle.gate_parts.specs.Appended.{Appended};
ghost use Rattle.status_gates.specs.Registers as model;

use crate::parts::SharedNets;
use crate::{add_opcode, add_shown, add_wires};
use gate_parts::appended_count;
use netlist_arena::Netlist;
use netlist_model::{Feed, NetId};
use register_gates::{added_in_turn, constants_are_bits, constants_of};
use status_fitting::FittedRegister;

// The net that an operand is; of a constant net 0, which no opcode with a bit gives.
fn net_of(feed: Feed) -> NetId
    ensures { result ≡ model.net_in feed }
{
    match feed {
        Feed::Net(net) => net,
        Feed::Const(_) => NetId(0),
    }
}

/// Adds a register to a dense netlist, before what stands behind it on its way to TDO, and answers the multiplexer's
/// net.
pub fn add_register(
    netlist: &mut Netlist,
    shared: &SharedNets,
    register: &FittedRegister,
    behind: NetId,
) -> NetId
    requires dense { IsDense netlist.old.lists }
    requires nets { model.register_size register.now ≤ netlist.old.spare.nets }
    requires cells { model.register_size register.now ≤ netlist.old.spare.cells }
    requires stands { model.CanStand (length netlist.old.lists.nets) shared.now register.now }
    requires behind { behind.0 < length netlist.old.lists.nets }
    ensures shown { result ≡ model.shown_at (length netlist.old.lists.nets) register.now }
    ensures added { Appended netlist.old netlist.new (model.register_size register.now)
        (model.register_cells (length netlist.old.lists.nets) (cell_count netlist.old.lists) shared.now register.now behind) }
    ensures dense { IsDense netlist.new.lists }
{
    added_in_turn();
    appended_count();
    constants_are_bits();
    let opcode = register.register.bits;
    let wanted = constants_of(opcode.value);
    let told = add_opcode(
        netlist,
        shared.opcode,
        shared.inverses,
        &wanted[..opcode.len as usize],
    );
    let on = net_of(told);
    let near = add_wires(
        netlist,
        &shared.tap,
        on,
        shared.tdi,
        register.nets.as_slice(),
    );
    add_shown(netlist, behind, near, on)
}
