// The instruction register: its shift stage and the opcode that is latched behind it.

ghost use Rattle.std.specs.Prelude.{◌≡◌, ◌+◌, ◌*◌, ◌<◌, ◌≤◌, ℕ, length};
ghost use Rattle.netlist_model.specs.Lists.{cell_count};
ghost use Rattle.netlist_model.specs.Contained.{IsDense};
ghost use Rattle.netlist_model.specs.Below.{AreFeedsBelow};
ghost use Rattle.gate_parts.specs.Appended.{Appended};
ghost use Rattle.register_gates.specs.Bits.{AreNetsBelow};
ghost use Rattle.register_gates.specs.Chains.{chain_last};
ghost use Rattle.instruction_gates.specs.Stages.{stages_cells};

use crate::{Latching, add_latches};
use cell_library::Kind;
use gate_parts::{Gate, Pin, Pins, add_part, appended_count};
use netlist_arena::Netlist;
use netlist_model::{Feed, NetId};
use register_gates::added_in_turn;
use register_gates::bits::{Steering, add_shift_chain};
use test_logic::TapNets;

/// The bit of the shift stage nearest TDO, and the first of the nets of the latched bits, as `add_match` takes it.
#[derive(Clone, Copy)]
pub struct Stages {
    pub last: NetId,
    pub latches: NetId,
}

/// Whether the latched bits load. Handed in are Update-IR and Test-Logic-Reset.
pub const LOADS: [Gate; 1] = [
    Gate {
        kind: Kind::Or,
        pins: Pins::Two(Pin::Given(0), Pin::Given(1)),
    }, // 0: they load
];

/// Adds the instruction register to a dense netlist, by the constants that its shift stage captures and those of the
/// opcode that reset latches, which are as many. For n bits it takes 1 + 6 n cells and nets of the room that is there.
pub fn add_stages(
    netlist: &mut Netlist,
    tap: &TapNets,
    tdi: NetId,
    captured: &[Feed],
    presets: &[Feed],
) -> Stages
    requires dense { IsDense netlist.old.lists }
    requires nets { 1 + 6 * length captured.now ≤ netlist.old.spare.nets }
    requires cells { 1 + 6 * length captured.now ≤ netlist.old.spare.cells }
    requires clock { AreNetsBelow (length netlist.old.lists.nets) tap.now.tck tap.now.trst }
    requires steps { AreNetsBelow (length netlist.old.lists.nets) tap.now.capture_ir tap.now.shift_ir }
    requires loads { AreNetsBelow (length netlist.old.lists.nets) tap.now.update_ir tap.now.in_reset }
    requires tdi { tdi.0 < length netlist.old.lists.nets }
    requires captured { (nets : ℕ) → length netlist.old.lists.nets ≤ nets
        → AreFeedsBelow nets captured.now }
    requires as_many { length presets.now ≡ length captured.now }
    ensures last { result.last ≡ chain_last (length netlist.old.lists.nets + 1) tdi captured.now }
    ensures latches { result.latches.0 ≡ length netlist.old.lists.nets + (1 + 3 * length captured.now) }
    ensures added { Appended netlist.old netlist.new
        (1 + 3 * length captured.now + 3 * length presets.now)
        (stages_cells (length netlist.old.lists.nets) (cell_count netlist.old.lists) tap.now tdi captured.now presets.now) }
    ensures dense { IsDense netlist.new.lists }
{
    appended_count();
    added_in_turn();
    let given = [Feed::Net(tap.update_ir), Feed::Net(tap.in_reset)];
    let load = add_part(netlist, &LOADS, &given);
    let steering = Steering {
        tck: tap.tck,
        trst: tap.trst,
        capture: tap.capture_ir,
        shift: tap.shift_ir,
    };
    let shifts = NetId(netlist.net_count());
    let last = add_shift_chain(netlist, &steering, tdi, captured);
    let latching = Latching {
        tck: tap.tck,
        trst: tap.trst,
        load,
        in_reset: tap.in_reset,
    };
    let latches = add_latches(netlist, &latching, shifts, presets);
    Stages { last, latches }
}
