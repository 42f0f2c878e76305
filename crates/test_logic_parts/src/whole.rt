// All of the test logic.

ghost use Rattle.std.specs.Prelude.{◌≡◌, ◌≢◌, ℕ, ◌+◌, ◌<◌, ◌≤◌, length};
ghost use Rattle.netlist_model.specs.Lists.{cell_count};
ghost use Rattle.netlist_arena.specs.Adds.{IsFree};
ghost use Rattle.gate_parts.specs.Appended.{Appended};
ghost use Rattle.core_sides.specs.stitched_netlist.Sites as sites;
ghost use Rattle.core_sides.specs.stitched_netlist.ModelLogic.{logic_at};
ghost use Rattle.core_sides.specs.stitched_netlist.Stitched.{test_logic_nets, test_logic_cells};
ghost use Rattle.core_sides.specs.Pins.{between};
ghost use Rattle.test_logic_parts.specs.Rows.{into_from, IsApart};
ghost use Rattle.test_logic_parts.specs.Whole.{net_room, cell_room, CanTakeLogic};

use crate::logic::add_logic;
use crate::rows::add_rows;
use core_sides::lower_stitched_netlist::{Logic, TapPort};
use gate_parts::{appended_count, appended_more, free_net_stays};
use netlist_arena::Netlist;
use netlist_model::{CellId, NetId};
use plan_fitting::Fitted;
use register_gates::add_tdo;

/// Adds the controller and the registers, the boundary register, and what drives TDO, to a netlist whose core stands
/// behind its boundary cells. The nets between run from `first` up to `end`. Other nets that were free stay so.
/// Answered are what the controller and the registers hand on, and TDO's gate that chooses between the bits of the
/// boundary and the bypass register.
pub fn add_test_logic(
    netlist: &mut Netlist,
    fitted: &Fitted,
    port: &TapPort,
    first: NetId,
    end: NetId,
) -> (Logic, CellId)
    requires can { CanTakeLogic netlist.old (between netlist.old.lists.ports fitted.now.rows first)
        fitted.now port.now }
    requires end { end.0 ≡ first.0 + sites.sides_of netlist.old.lists.ports fitted.now.rows }
    ensures logic { result.0 ≡ logic_at (length netlist.old.lists.nets) port.now fitted.now }
    ensures gate { result.1.0 + 3 ≡ cell_count netlist.new.lists }
    ensures added { Appended netlist.old netlist.new
        (test_logic_nets (between netlist.old.lists.ports fitted.now.rows first) fitted.now)
        (test_logic_cells (between netlist.old.lists.ports fitted.now.rows first) (length netlist.old.lists.nets)
        (cell_count netlist.old.lists) port.now fitted.now) }
    ensures nets_left { netlist.old.spare.nets ≤ netlist.new.spare.nets + net_room fitted.now }
    ensures cells_left { netlist.old.spare.cells ≤ netlist.new.spare.cells + cell_room fitted.now }
    ensures free { (net : ℕ) → IsApart (into_from
        (between netlist.old.lists.ports fitted.now.rows first) first.0 fitted.now.rows) net
        → net ≢ port.now.tdo.0 → net < length netlist.old.lists.nets → IsFree netlist.old.lists net
        → IsFree netlist.new.lists net }
{
    appended_count();
    appended_more();
    free_net_stays();
    let logic = add_logic(netlist, port, fitted);
    let rows = fitted.rows.as_slice();
    let scan = &logic.instruction.scan;
    let nearest = add_rows(netlist, rows, first, scan, end, port.tdi);
    add_tdo(
        netlist,
        &logic.tap,
        &logic.instruction,
        logic.bypass,
        logic.ident,
        nearest,
        port.tdo,
    );
    let count = netlist.cell_count();
    let gate = CellId(count - 3);
    (logic, gate)
}
