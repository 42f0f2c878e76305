// The test logic, part by part.

ghost use Rattle.std.specs.Prelude.{◌≡◌, ◌+◌, ◌<◌, ◌≤◌, length};
ghost use Rattle.netlist_model.specs.Lists.{cell_count};
ghost use Rattle.netlist_model.specs.Contained.{IsDense};
ghost use Rattle.stitched_netlist.specs.Sites as sites;
ghost use Rattle.stitched_netlist.specs.ModelLogic.{logic_at};
ghost use Rattle.stitched_netlist.specs.Stitched.{first_net, tap_port, stitched_cells, stitched};
ghost use Rattle.written_netlists.specs.Prepared.{room_of};
ghost use Rattle.written_netlists.specs.Same.{IsSameNetlist};
ghost use Rattle.scan_stitch.specs.Stitched.{surrounded, CanBeStitched, HasStitchRoom};

use gate_parts::appended_count;
use netlist_arena::Netlist;
use netlist_model::{CellId, NetId};
use plan_fitting::Fitted;
use stitched_netlist::model::{Logic, TapNames, TapPort};
use stitched_netlist::places::stitched_holds_the_core;
use test_logic_parts::{add_port_nets, add_ports, add_sides, add_test_logic};
use written_netlists::lower_core_sides::{sides_of, stand_behind};

// What stands round the core: the nets of the test access port, and the nets between, from `first` up to `end`.
struct Surroundings {
    port: TapPort,
    first: NetId,
    end: NetId,
}

// Adds these nets, and puts the core behind its boundary cells.
fn surround(netlist: &mut Netlist, names: &TapNames, fitted: &Fitted) -> Surroundings
    requires can { CanBeStitched netlist.old.lists names.now fitted.now }
    requires room { HasStitchRoom netlist.old fitted.now }
    ensures port { result.port ≡ tap_port (length netlist.old.lists.nets) }
    ensures first { result.first.0 ≡ length netlist.old.lists.nets + 5 }
    ensures end { result.end.0 ≡ result.first.0 + sites.sides_of netlist.old.lists.ports fitted.now.rows }
    ensures lists { netlist.new.lists ≡ surrounded netlist.old.lists names.now fitted.now.rows }
    ensures nets { netlist.new.spare.nets + (5 + sites.sides_of netlist.old.lists.ports fitted.now.rows)
        ≡ netlist.old.spare.nets }
    ensures cells { netlist.new.spare.cells ≡ netlist.old.spare.cells }
    ensures port_bits { netlist.new.spare.port_bits ≡ netlist.old.spare.port_bits }
{
    netlist.is_laid_out();
    let rows = fitted.rows.as_slice();
    let port = add_port_nets(netlist, names);
    let count = sides_of(netlist, rows);
    let first = add_sides(netlist, count);
    stand_behind(netlist, rows, first);
    let end = NetId(first.0 + count);
    Surroundings { port, first, end }
}

/// What was built in: the nets of the test access port, what the controller and the registers hand on, and TDO's gate
/// that chooses between the bits of the boundary and the bypass register.
#[derive(Clone, Copy)]
pub struct Built {
    pub port: TapPort,
    pub logic: Logic,
    pub gate: CellId,
}

/// Builds the test logic into a netlist without gaps that the plan was fitted to, and where there is room. It takes no
/// memory.
pub fn stitch_netlist(netlist: &mut Netlist, names: &TapNames, fitted: &Fitted) -> Built
    requires can { CanBeStitched netlist.old.lists names.now fitted.now }
    requires room { HasStitchRoom netlist.old fitted.now }
    ensures port { result.port ≡ tap_port (length netlist.old.lists.nets) }
    ensures logic { result.logic ≡ logic_at (first_net netlist.old.lists fitted.now)
        (tap_port (length netlist.old.lists.nets)) fitted.now }
    ensures gate { result.gate.0 + 3 ≡ cell_count netlist.new.lists }
    ensures stitched { IsSameNetlist netlist.new.lists (stitched netlist.old.lists names.now fitted.now) }
    ensures nets { length netlist.new.lists.nets ≤ length netlist.old.lists.nets + room_of fitted.now }
    ensures cells { cell_count netlist.new.lists ≤ cell_count netlist.old.lists + room_of fitted.now }
    ensures dense { IsDense netlist.new.lists }
    ensures count { cell_count netlist.new.lists ≡ length (stitched_cells netlist.old.lists fitted.now) }
    // A cell and a net of the room are left.
    ensures nets_left { length netlist.new.lists.nets < length netlist.old.lists.nets + room_of fitted.now }
    ensures cells_left { cell_count netlist.new.lists < cell_count netlist.old.lists + room_of fitted.now }
    ensures net_room { length netlist.new.lists.nets + netlist.new.spare.nets
        ≡ length netlist.old.lists.nets + netlist.old.spare.nets }
    ensures cell_room { cell_count netlist.new.lists + netlist.new.spare.cells
        ≡ cell_count netlist.old.lists + netlist.old.spare.cells }
{
    netlist.is_laid_out();
    appended_count();
    stitched_holds_the_core();
    let Surroundings { port, first, end } = surround(netlist, names, fitted);
    let (logic, gate) = add_test_logic(netlist, fitted, &port, first, end);
    add_ports(netlist, names, &port);
    Built { port, logic, gate }
}
