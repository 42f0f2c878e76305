// The controller and the registers beside the boundary register.

ghost use Rattle.std.specs.Prelude.{◌≡◌, ℕ, ◌+◌, ◌<◌, ◌≤◌, [], length, option_map};
ghost use Rattle.std.specs.Option.{option_map_or};
ghost use Rattle.netlist_model.specs.Lists.{cell_count};
ghost use Rattle.netlist_model.specs.Contained.{IsDense};
ghost use Rattle.netlist_arena.specs.Adds.{IsFree};
ghost use Rattle.gate_parts.specs.Appended.{Appended};
ghost use Rattle.register_gates.specs.Bits.{AreNetsBelow};
ghost use Rattle.register_gates.specs.Registers.{ident_cells, ident_last};
ghost use Rattle.register_gates.specs.Tdo.{AreIdentBelow};
ghost use Rattle.core_sides.specs.stitched_netlist.ModelLogic.{code_size, logic_size, logic_at, logic_cells};
ghost use Rattle.test_logic_parts.specs.Logic.{logic_room, HasLogicRoom, IsPortBelow, IsLogicBelow};

use core_sides::lower_stitched_netlist::{Logic, TapPort};
use gate_parts::{appended_count, appended_more, appended_none, free_net_stays};
use instruction_gates::register::add_instruction;
use netlist_arena::Netlist;
use netlist_model::NetId;
use plan_fitting::Fitted;
use register_gates::{add_bypass, add_ident, constants_are_bits};
use tap_gates::add_tap;
use test_logic::{InstrNets, TapNets};

// Adds the identification register of a device that has one, and answers its bit nearest TDO.
fn add_code(
    netlist: &mut Netlist,
    tap: &TapNets,
    instruction: &InstrNets,
    tdi: NetId,
    code: Option<u32>,
    user: Option<u32>,
) -> Option<NetId>
    requires dense { IsDense netlist.old.lists }
    requires nets { 99 ≤ netlist.old.spare.nets }
    requires cells { 99 ≤ netlist.old.spare.cells }
    requires clock { AreNetsBelow (length netlist.old.lists.nets) tap.now.tck tap.now.trst }
    requires steps { AreNetsBelow (length netlist.old.lists.nets) tap.now.capture_dr tap.now.shift_dr }
    requires selections { AreNetsBelow (length netlist.old.lists.nets) instruction.now.ident_on
        instruction.now.user_on }
    requires tdi { tdi.0 < length netlist.old.lists.nets }
    ensures ident { result ≡ option_map (ident_last (length netlist.old.lists.nets)
        instruction.now.user_on tdi user) code }
    ensures below { AreIdentBelow (length netlist.new.lists.nets) result }
    ensures added { Appended netlist.old netlist.new (code_size user code)
        (option_map_or (ident_cells (length netlist.old.lists.nets) (cell_count netlist.old.lists) tap.now
        instruction.now.ident_on instruction.now.user_on tdi user) code []) }
    ensures cells_left { netlist.old.spare.cells ≤ netlist.new.spare.cells + 99 }
    ensures dense { IsDense netlist.new.lists }
{
    appended_none();
    appended_count();
    match code {
        Some(code) => Some(add_ident(netlist, tap, instruction, tdi, code, user)),
        None => None,
    }
}

/// Adds the controller, the instruction register, the bypass register, and the identification register of a device that
/// has one, to a dense netlist. Nets that were free stay so.
pub fn add_logic(netlist: &mut Netlist, port: &TapPort, fitted: &Fitted) -> Logic
    requires dense { IsDense netlist.old.lists }
    requires bits { fitted.now.codes.length ≤ 32 }
    requires room { HasLogicRoom netlist.old fitted.now }
    requires port { IsPortBelow (length netlist.old.lists.nets) port.now }
    ensures logic { result ≡ logic_at (length netlist.old.lists.nets) port.now fitted.now }
    ensures below { IsLogicBelow (length netlist.new.lists.nets) result }
    ensures added { Appended netlist.old netlist.new (logic_size fitted.now)
        (logic_cells (length netlist.old.lists.nets) (cell_count netlist.old.lists) port.now fitted.now) }
    ensures nets_left { netlist.old.spare.nets ≤ netlist.new.spare.nets + logic_room fitted.now }
    ensures cells_left { netlist.old.spare.cells ≤ netlist.new.spare.cells + logic_room fitted.now }
    ensures dense { IsDense netlist.new.lists }
    ensures free { (net : ℕ) → net < length netlist.old.lists.nets → IsFree netlist.old.lists net
        → IsFree netlist.new.lists net }
{
    appended_count();
    appended_more();
    free_net_stays();
    constants_are_bits();
    let tap = add_tap(netlist, port.tck, port.tms, port.trst);
    let instruction = add_instruction(netlist, &tap, port.tdi, &fitted.codes);
    let bypass = add_bypass(netlist, &tap, &instruction, port.tdi);
    let ident = add_code(
        netlist,
        &tap,
        &instruction,
        port.tdi,
        fitted.idcode,
        fitted.usercode,
    );
    Logic {
        tap,
        instruction,
        bypass,
        ident,
    }
}
