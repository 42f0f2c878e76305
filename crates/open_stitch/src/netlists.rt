// The test logic and the buffer, in a netlist.

ghost use Rattle.std.specs.Prelude.{◌≡◌, ℕ, ◌+◌, ◌<◌, ◌≤◌, List, [], ◌∷◌, length};
ghost use Rattle.netlist_model.specs.declared.Feed.TheVariants.{Net};
ghost use Rattle.netlist_model.specs.Lists.{IsDrivenOnce, cell_count};
ghost use Rattle.netlist_model.specs.Contained.{IsDense};
ghost use Rattle.netlist_model.specs.Formed.{IsLaidOut, IsWellFormed};
ghost use Rattle.netlist_link.specs.WellNamed.{IsWellNamed};
ghost use Rattle.gate_parts.specs.Appended.{Appended};
ghost use Rattle.gate_parts.specs.Parts.{part_cells};
ghost use Rattle.stitched_netlist.specs.Stitched.{stitched};
ghost use Rattle.scan_stitch.specs.written_netlists.Prepared.{room_of};
ghost use Rattle.scan_stitch.specs.written_netlists.Same.{IsSameNetlist};
ghost use Rattle.scan_stitch.specs.Stitched.{CanBeStitched, HasStitchRoom};
ghost use Rattle.open_stitch.specs.declared.TheConstants.{THROUGH};
ghost use Rattle.open_stitch.specs.Open.{stitched_open, parts_at};

use crate::runs::connected_extends;
use crate::{Parts, THROUGH};
use gate_parts::{add_part, appended_count, contained_part_has_flops};
use netlist_arena::Netlist;
use netlist_link::draft_laws::{
    appended_is_named, grown_is_formed, part_is_formed, part_is_named, part_is_readable,
};
use netlist_model::laws::contained_parts;
use netlist_model::{CellId, Feed, NetId};
use plan_fitting::Fitted;
use scan_stitch::lower_written_netlists::same_is_named;
use scan_stitch::stitch_netlist;
use status_build::reconnected::reconnected_to_low;
use stitched_netlist::model::TapNames;
use stitched_netlist::places::stitched_holds_its_parts;

// Adds the buffer, and answers its net.
fn add_through(netlist: &mut Netlist, bypass: NetId) -> NetId
    requires dense { IsDense netlist.old.lists }
    requires nets { 1 ≤ netlist.old.spare.nets }
    requires cells { 1 ≤ netlist.old.spare.cells }
    requires bypass { bypass.0 < length netlist.old.lists.nets }
    ensures net { result.0 ≡ length netlist.old.lists.nets }
    ensures added { Appended netlist.old netlist.new 1
        (part_cells THROUGH (Net bypass ∷ []) (length netlist.old.lists.nets) (cell_count netlist.old.lists)) }
    ensures dense { IsDense netlist.new.lists }
    ensures laid_out { IsLaidOut netlist.old.lists }
    ensures driven_once { IsDrivenOnce netlist.new.lists }
{
    netlist.is_laid_out();
    let net = add_part(netlist, &THROUGH, &[Feed::Net(bypass)]);
    netlist.is_laid_out();
    net
}

/// Builds the test logic and the buffer into a netlist without gaps that the plan was fitted to, and where there is
/// room, and answers what further registers are built on. It takes no memory.
pub fn open_netlist(netlist: &mut Netlist, names: &TapNames, fitted: &Fitted) -> Parts
    requires can { CanBeStitched netlist.old.lists names.now fitted.now }
    requires room { HasStitchRoom netlist.old fitted.now }
    ensures parts { result ≡ parts_at netlist.old.lists fitted.now }
    ensures opened { IsSameNetlist netlist.new.lists (stitched_open netlist.old.lists names.now fitted.now) }
    // Where the netlist without the buffer is well formed and well named, this one is.
    ensures formed { IsWellFormed (stitched netlist.old.lists names.now fitted.now)
        → IsWellFormed netlist.new.lists }
    ensures named { (table : List (List ℕ))
        → IsWellNamed table (stitched netlist.old.lists names.now fitted.now)
        → IsWellNamed table netlist.new.lists }
    ensures nets { length netlist.new.lists.nets ≤ length netlist.old.lists.nets + room_of fitted.now }
    ensures cells { cell_count netlist.new.lists ≤ cell_count netlist.old.lists + room_of fitted.now }
    ensures dense { IsDense netlist.new.lists }
    // The room shrinks by as much as is built.
    ensures net_room { length netlist.new.lists.nets + netlist.new.spare.nets
        ≡ length netlist.old.lists.nets + netlist.old.spare.nets }
    ensures cell_room { cell_count netlist.new.lists + netlist.new.spare.cells
        ≡ cell_count netlist.old.lists + netlist.old.spare.cells }
{
    appended_count();
    part_is_formed();
    part_is_readable();
    part_is_named();
    appended_is_named();
    grown_is_formed();
    same_is_named();
    stitched_holds_its_parts();
    contained_parts();
    contained_part_has_flops();
    reconnected_to_low();
    connected_extends();
    let built = stitch_netlist(netlist, names, fitted);
    let through = netlist.cell_count();
    let net = add_through(netlist, built.logic.bypass);
    netlist.connect(built.gate, 1, Feed::Net(net));
    Parts {
        tap: built.logic.tap,
        instr: built.logic.instruction,
        tdi: built.port.tdi,
        bypass: built.logic.bypass,
        through: CellId(through),
    }
}
