ghost use Rattle.std.specs.Prelude.{◌≡◌, ◌+◌, ◌*◌, ◌<◌, ◌≤◌, ◌^◌, length};
ghost use Rattle.netlist_model.specs.Lists.{cell_count};
ghost use Rattle.netlist_model.specs.Contained.{IsDense};
ghost use Rattle.netlist_model.specs.Below.{AreFeedsBelow};
ghost use Rattle.gate_parts.specs.Appended.{Appended};
ghost use Rattle.register_gates.specs.Bits.{AreNetsBelow};
ghost use Rattle.register_gates.specs.Chains.{chain_cells, chain_last};

use crate::bits::{Steering, add_shift_bit};
use gate_parts::{appended_count, appended_more, appended_none};
use netlist_arena::Netlist;
use netlist_model::{Feed, NetId};

/// Adds a shift stage to a dense netlist, with a bit for each operand that it captures, the first of which is nearest
/// TDO. It answers the net of that bit, and TDI's where there is none.
pub fn add_shift_chain(
    netlist: &mut Netlist,
    steering: &Steering,
    tdi: NetId,
    captured: &[Feed],
) -> NetId
    requires dense { IsDense netlist.old.lists }
    requires nets { 3 * length captured.now ≤ netlist.old.spare.nets }
    requires cells { 3 * length captured.now ≤ netlist.old.spare.cells }
    requires steering { AreNetsBelow (length netlist.old.lists.nets) steering.now.tck steering.now.trst }
    requires steps { AreNetsBelow (length netlist.old.lists.nets) steering.now.capture
        steering.now.shift }
    requires tdi { tdi.0 < length netlist.old.lists.nets }
    requires captured { AreFeedsBelow (length netlist.old.lists.nets) captured.now }
    ensures last { result ≡ chain_last (length netlist.old.lists.nets) tdi captured.now }
    ensures added { Appended netlist.old netlist.new (3 * length captured.now)
        (chain_cells (length netlist.old.lists.nets) (cell_count netlist.old.lists) steering.now tdi captured.now) }
    ensures dense { IsDense netlist.new.lists }
{
    appended_none();
    appended_count();
    appended_more();
    let mut last = tdi;
    for place in (0..captured.len()).rev() {
        last = add_shift_bit(netlist, steering, captured[place], last);
    }
    last
}
