// The identification register.

ghost use Rattle.std.specs.Prelude.{◌≡◌, ◌+◌, ◌<◌, ◌≤◌, length, Some};
ghost use Rattle.netlist_model.specs.Lists.{cell_count};
ghost use Rattle.netlist_model.specs.Contained.{IsDense};
ghost use Rattle.gate_parts.specs.Appended.{Appended};
ghost use Rattle.register_gates.specs.Bits.{AreNetsBelow};
ghost use Rattle.register_gates.specs.Registers.{inverse_cells, ident_cells, ident_last, ident_size};

use crate::add_data;
use crate::constants::{choices_of, constants_of};
use cell_library::Kind;
use gate_parts::{Gate, Pin, Pins, add_part, appended_count, appended_more};
use netlist_arena::Netlist;
use netlist_model::{Feed, NetId};
use tap_gates::lower_test_logic::{InstrNets, TapNets};

/// The inverse of a bit. Handed in is the bit.
pub const INVERSE: [Gate; 1] = [
    Gate {
        kind: Kind::Not,
        pins: Pins::One(Pin::Given(0)),
    }, // 0: the inverse
];

// Adds what tells that USERCODE isn't in effect.
fn add_inverse(netlist: &mut Netlist, user_on: NetId, user: u32) -> NetId
    requires dense { IsDense netlist.old.lists }
    requires nets { 1 ≤ netlist.old.spare.nets }
    requires cells { 1 ≤ netlist.old.spare.cells }
    requires on { user_on.0 < length netlist.old.lists.nets }
    ensures first { result.0 ≡ length netlist.old.lists.nets }
    ensures added { Appended netlist.old netlist.new 1
        (inverse_cells (length netlist.old.lists.nets) (cell_count netlist.old.lists) user_on (Some user)) }
    ensures dense { IsDense netlist.new.lists }
{
    add_part(netlist, &INVERSE, &[Feed::Net(user_on)])
}

/// Adds the identification register with this code, and a usercode or none, to a dense netlist, and answers the
/// net of bit 0, which is nearest TDO. It takes 98 cells and nets of the room that is there, and 1 more where
/// there is a usercode.
pub fn add_ident(
    netlist: &mut Netlist,
    tap: &TapNets,
    instruction: &InstrNets,
    tdi: NetId,
    code: u32,
    user: Option<u32>,
) -> NetId
    requires dense { IsDense netlist.old.lists }
    requires nets { ident_size user ≤ netlist.old.spare.nets }
    requires cells { ident_size user ≤ netlist.old.spare.cells }
    requires clock { AreNetsBelow (length netlist.old.lists.nets) tap.now.tck tap.now.trst }
    requires steps { AreNetsBelow (length netlist.old.lists.nets) tap.now.capture_dr tap.now.shift_dr }
    requires selections { AreNetsBelow (length netlist.old.lists.nets) instruction.now.ident_on
        instruction.now.user_on }
    requires tdi { tdi.0 < length netlist.old.lists.nets }
    ensures last { result ≡ ident_last (length netlist.old.lists.nets) instruction.now.user_on tdi
        user code }
    ensures added { Appended netlist.old netlist.new (ident_size user)
        (ident_cells (length netlist.old.lists.nets) (cell_count netlist.old.lists) tap.now instruction.now.ident_on instruction.now.user_on tdi user code) }
    ensures dense { IsDense netlist.new.lists }
{
    appended_count();
    appended_more();
    let on = instruction.ident_on;
    match user {
        None => add_data(netlist, tap, on, tdi, &constants_of(code)),
        Some(user) => {
            let off = add_inverse(netlist, instruction.user_on, user);
            let captured = choices_of(code, user, instruction.user_on, off);
            add_data(netlist, tap, on, tdi, &captured)
        }
    }
}
