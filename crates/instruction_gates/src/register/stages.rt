// The stages of the instruction register, by its codes.

ghost use Rattle.std.specs.Prelude.{◌≡◌, ◌+◌, ◌*◌, ◌<◌, ◌≤◌, length};
ghost use Rattle.netlist_model.specs.Lists.{cell_count};
ghost use Rattle.netlist_model.specs.Contained.{IsDense};
ghost use Rattle.gate_parts.specs.Appended.{Appended};
ghost use Rattle.register_gates.specs.Bits.{AreNetsBelow};
ghost use Rattle.register_gates.specs.Chains.{chain_last};
ghost use Rattle.instruction_gates.specs.Stages.{stages_cells};
ghost use Rattle.instruction_gates.specs.Register.{pattern_bits, stages_size, latches_from};

use crate::{Stages, add_stages};
use gate_parts::appended_count;
use netlist_arena::Netlist;
use netlist_model::NetId;
use register_gates::{constants_are_bits, constants_of};
use test_logic::{Codes, TapNets};

/// Adds the two stages of the instruction register to a dense netlist: the first captures the codes' pattern, the
/// second latches the opcode of reset.
pub fn add_coded_stages(netlist: &mut Netlist, tap: &TapNets, tdi: NetId, codes: &Codes) -> Stages
    requires dense { IsDense netlist.old.lists }
    requires bits { codes.now.length ≤ 32 }
    requires nets { 1 + 6 * codes.now.length ≤ netlist.old.spare.nets }
    requires cells { 1 + 6 * codes.now.length ≤ netlist.old.spare.cells }
    requires clock { AreNetsBelow (length netlist.old.lists.nets) tap.now.tck tap.now.trst }
    requires steps { AreNetsBelow (length netlist.old.lists.nets) tap.now.capture_ir tap.now.shift_ir }
    requires loads { AreNetsBelow (length netlist.old.lists.nets) tap.now.update_ir tap.now.in_reset }
    requires tdi { tdi.0 < length netlist.old.lists.nets }
    ensures last { result.last ≡ chain_last (length netlist.old.lists.nets + 1) tdi
        (pattern_bits codes.now codes.now.capture) }
    ensures latches { result.latches.0 ≡ latches_from (length netlist.old.lists.nets) codes.now }
    ensures added { Appended netlist.old netlist.new (stages_size codes.now)
        (stages_cells (length netlist.old.lists.nets) (cell_count netlist.old.lists) tap.now tdi
        (pattern_bits codes.now codes.now.capture) (pattern_bits codes.now codes.now.reset)) }
    ensures count { length netlist.new.lists.nets
        ≡ length netlist.old.lists.nets + (1 + 6 * codes.now.length) }
    ensures nets_left { netlist.new.spare.nets + (1 + 6 * codes.now.length) ≡ netlist.old.spare.nets }
    ensures cells_left { netlist.new.spare.cells + (1 + 6 * codes.now.length) ≡ netlist.old.spare.cells }
    ensures dense { IsDense netlist.new.lists }
{
    appended_count();
    constants_are_bits();
    let captured = constants_of(codes.capture.value);
    let presets = constants_of(codes.reset.value);
    let bits = codes.length as usize;
    add_stages(netlist, tap, tdi, &captured[..bits], &presets[..bits])
}
