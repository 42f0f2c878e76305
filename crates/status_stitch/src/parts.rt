// The test logic and the registers, in a netlist.

ghost use Rattle.std.specs.Prelude.{◌≡◌, ℕ, ◌+◌, ◌≤◌, List, length};
ghost use Rattle.netlist_model.specs.Lists.{cell_count};
ghost use Rattle.netlist_model.specs.Formed.{IsWellFormed};
ghost use Rattle.netlist_link.specs.WellNamed.{IsWellNamed};
ghost use Rattle.stitched_netlist.specs.Stitched.{stitched};
ghost use Rattle.written_netlists.specs.Same.{IsSameNetlist};
ghost use Rattle.status_room.specs.scan_stitch.Stitched.{CanBeStitched};
ghost use Rattle.status_room.specs.Needed.{AreBuildable};
ghost use Rattle.status_room.specs.Ready.{whole_room, HasStatusRoom};
ghost use Rattle.status_stitch.specs.Stitched.{stitched_status};

use netlist_arena::Netlist;
use netlist_model::NetId;
use netlist_model::laws::numbers_of_a_dense_netlist;
use open_stitch::open_netlist;
use plan_fitting::Fitted;
use status_build::build::build_registers;
use status_build::places::{shared_nets_stand, wires_stand};
use status_fitting::FittedRegister;
use status_gates::parts::SharedNets;
use stitched_netlist::cells::stitched_directions;
use stitched_netlist::model::TapNames;
use stitched_netlist::places::extension_is_built_in;

/// Builds the test logic and registers into a netlist without gaps that they fit, and where there is room. It takes no
/// memory.
pub fn status_netlist(
    netlist: &mut Netlist,
    names: &TapNames,
    fitted: &Fitted,
    registers: &[FittedRegister],
)
    requires can { CanBeStitched netlist.old.lists names.now fitted.now }
    requires buildable { AreBuildable netlist.old.lists fitted.now registers.now }
    requires room { HasStatusRoom netlist.old fitted.now registers.now }
    ensures built { IsSameNetlist netlist.new.lists
        (stitched_status netlist.old.lists names.now fitted.now registers.now) }
    // Where the netlist with the test logic alone is well formed and well named, this one is.
    ensures formed { IsWellFormed (stitched netlist.old.lists names.now fitted.now)
        → IsWellFormed netlist.new.lists }
    ensures named { (table : List (List ℕ))
        → IsWellNamed table (stitched netlist.old.lists names.now fitted.now)
        → IsWellNamed table netlist.new.lists }
    ensures nets { length netlist.new.lists.nets ≤ length netlist.old.lists.nets + whole_room fitted.now registers.now }
    ensures cells { cell_count netlist.new.lists ≤ cell_count netlist.old.lists + whole_room fitted.now registers.now }
{
    extension_is_built_in();
    stitched_directions();
    shared_nets_stand();
    wires_stand();
    numbers_of_a_dense_netlist();
    netlist.is_laid_out();
    let parts = open_netlist(netlist, names, fitted);
    let first = netlist.net_count();
    let shared = SharedNets {
        tap: parts.tap,
        tdi: parts.tdi,
        opcode: parts.instr.opcode,
        inverses: NetId(first),
    };
    build_registers(
        netlist,
        &shared,
        parts.bypass,
        fitted.codes.length,
        parts.through,
        registers,
    );
}
