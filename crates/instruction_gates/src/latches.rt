// The bits of the opcode that is latched.

ghost use Rattle.std.specs.Prelude.{◌≡◌, ◌+◌, ◌*◌, ◌<◌, ◌≤◌, ◌^◌, length};
ghost use Rattle.netlist_model.specs.Lists.{cell_count};
ghost use Rattle.netlist_model.specs.Contained.{IsDense};
ghost use Rattle.gate_parts.specs.Appended.{Appended};
ghost use Rattle.register_gates.specs.Bits.{AreNetsBelow};
ghost use Rattle.instruction_gates.specs.Latches.{latch_cells, latches_cells};

use crate::is_one;
use cell_library::Kind;
use gate_parts::{Gate, Pin, Pins, add_part, appended_count, appended_none};
use netlist_arena::Netlist;
use netlist_model::{Feed, NetId};
use register_gates::added_in_turn;
use register_gates::bits::{Holding, add_held_bit};

/// What steers the latched bits: TCK, TRST, a net that is 1 exactly in Update-IR and Test-Logic-Reset, and one that is
/// so in Test-Logic-Reset.
#[derive(Clone, Copy)]
pub struct Latching {
    pub tck: NetId,
    pub trst: NetId,
    pub load: NetId,
    pub in_reset: NetId,
}

/// What a latched bit loads. Handed in are the bit of the shift stage, the bit of the opcode that reset latches, and
/// Test-Logic-Reset.
pub const LOADED: [Gate; 1] = [
    Gate {
        kind: Kind::Mux2,
        pins: Pins::Three(Pin::Given(0), Pin::Given(1), Pin::Given(2)),
    }, // 0: reset's bit in Test-Logic-Reset, else the shift stage's
];

// Adds one latched bit, behind this bit of the shift stage.
fn add_latch(netlist: &mut Netlist, latching: &Latching, shift: NetId, preset: Feed)
    requires dense { IsDense netlist.old.lists }
    requires nets { 3 ≤ netlist.old.spare.nets }
    requires cells { 3 ≤ netlist.old.spare.cells }
    requires clock { AreNetsBelow (length netlist.old.lists.nets) latching.now.tck latching.now.trst }
    requires steps { AreNetsBelow (length netlist.old.lists.nets) latching.now.load
        latching.now.in_reset }
    requires shift { shift.0 < length netlist.old.lists.nets }
    ensures added { Appended netlist.old netlist.new 3
        (latch_cells latching.now shift.0 (length netlist.old.lists.nets) (cell_count netlist.old.lists) preset) }
    ensures dense { IsDense netlist.new.lists }
{
    appended_count();
    added_in_turn();
    let is_preset = is_one(preset);
    let given = [
        Feed::Net(shift),
        Feed::Const(is_preset),
        Feed::Net(latching.in_reset),
    ];
    let loaded = add_part(netlist, &LOADED, &given);
    let holding = Holding {
        tck: latching.tck,
        trst: latching.trst,
        load: latching.load,
    };
    let _bit = add_held_bit(netlist, &holding, is_preset, Feed::Net(loaded));
}

/// Adds a latched bit for each constant of the opcode that reset latches, behind a shift stage of as many bits on nets
/// from `shifts` on, to a dense netlist. It answers the first of the new nets; in both the bit nearest TDI comes first.
pub fn add_latches(
    netlist: &mut Netlist,
    latching: &Latching,
    shifts: NetId,
    presets: &[Feed],
) -> NetId
    requires dense { IsDense netlist.old.lists }
    requires nets { 3 * length presets.now ≤ netlist.old.spare.nets }
    requires cells { 3 * length presets.now ≤ netlist.old.spare.cells }
    requires clock { AreNetsBelow (length netlist.old.lists.nets) latching.now.tck latching.now.trst }
    requires steps { AreNetsBelow (length netlist.old.lists.nets) latching.now.load
        latching.now.in_reset }
    requires shifts { shifts.0 + 3 * length presets.now ≤ length netlist.old.lists.nets }
    ensures first { result.0 ≡ length netlist.old.lists.nets }
    ensures added { Appended netlist.old netlist.new (3 * length presets.now)
        (latches_cells (length netlist.old.lists.nets) (cell_count netlist.old.lists) latching.now shifts.0 presets.now) }
    ensures dense { IsDense netlist.new.lists }
{
    appended_none();
    appended_count();
    added_in_turn();
    let first = netlist.net_count();
    for place in (0..presets.len()).rev() {
        let behind = (presets.len() - 1 - place) as u32;
        add_latch(
            netlist,
            latching,
            NetId(shifts.0 + 3 * behind),
            presets[place],
        );
    }
    NetId(first)
}
