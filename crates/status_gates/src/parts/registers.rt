// The gates of all registers.

ghost use Rattle.std.specs.Prelude.{◌≡◌, ◌<◌, ◌≤◌, length, All};
ghost use Rattle.netlist_model.specs.Lists.{cell_count};
ghost use Rattle.netlist_model.specs.Contained.{IsDense};
ghost use Rattle.gate_parts.specs.Appended.{Appended};
ghost use Rattle.status_gates.specs.Registers as model;

use crate::parts::SharedNets;
use crate::parts::register::add_register;
use gate_parts::{appended_count, appended_none};
use netlist_arena::Netlist;
use netlist_model::NetId;
use register_gates::{added_in_turn, constants_are_bits};
use status_fitting::FittedRegister;

/// Adds registers to a dense netlist, and answers the net whose value goes to TDO in the place of the bypass bit.
pub fn add_registers(
    netlist: &mut Netlist,
    shared: &SharedNets,
    bypass: NetId,
    registers: &[FittedRegister],
) -> NetId
    requires dense { IsDense netlist.old.lists }
    requires nets { model.registers_size registers.now ≤ netlist.old.spare.nets }
    requires cells { model.registers_size registers.now ≤ netlist.old.spare.cells }
    requires stand { All (model.CanStand (length netlist.old.lists.nets) shared.now) registers.now }
    requires bypass { bypass.0 < length netlist.old.lists.nets }
    ensures shown { result ≡ model.shown_of (length netlist.old.lists.nets) bypass registers.now }
    ensures added { Appended netlist.old netlist.new (model.registers_size registers.now)
        (model.registers_cells (length netlist.old.lists.nets) (cell_count netlist.old.lists) shared.now bypass registers.now) }
    ensures dense { IsDense netlist.new.lists }
{
    appended_none();
    appended_count();
    added_in_turn();
    constants_are_bits();
    let _nets = netlist.net_count();
    let mut shown = bypass;
    for place in (0..registers.len()).rev() {
        shown = add_register(netlist, shared, &registers[place], shown);
    }
    shown
}
