ghost use Rattle.std.specs.Prelude.{◌≡◌, ◌≢◌, ℕ, ◌<◌, ◌≤◌, length};
ghost use Rattle.netlist_model.specs.Lists.{cell_count};
ghost use Rattle.netlist_model.specs.Contained.{IsDense};
ghost use Rattle.netlist_model.specs.Below.{IsFeedBelow};
ghost use Rattle.netlist_arena.specs.Adds.{IsFree};
ghost use Rattle.gate_parts.specs.Appended.{Appended};
ghost use Rattle.boundary_cells.specs.Cells.{AreScanNetsBelow};
ghost use Rattle.boundary_cells.specs.ThreeState.{control_count, control_cells, bidir_cells};

use crate::add_cell_onto;
use crate::tables::{
    BC_1_CONTROL, BC_1_LEVEL, BC_2_CONTROL, BC_2_LEVEL, BC_7_HIGH, BC_7_LOW, UPDATES,
};
use cell_library::BoundaryKind;
use netlist_arena::Netlist;
use netlist_model::{Feed, NetId};
use test_logic::ScanNets;

/// Adds a control cell to a dense netlist, a BC_2 or else a BC_1, which gives `into` the control of a three-state
/// driver that is enabled by 1 where it is active high, and else by 0. It answers the net of the cell's shift bit; the
/// update bit is on the third net after it. Nothing drives `into` before.
pub fn add_control_cell(
    netlist: &mut Netlist,
    scan: &ScanNets,
    cell: BoundaryKind,
    core: Feed,
    active_high: bool,
    into: NetId,
    scan_in: NetId,
) -> NetId
    requires dense { IsDense netlist.old.lists }
    requires nets { 7 ≤ netlist.old.spare.nets }
    requires cells { 8 ≤ netlist.old.spare.cells }
    requires scan { AreScanNetsBelow (length netlist.old.lists.nets) scan.now }
    requires core { IsFeedBelow (length netlist.old.lists.nets) core }
    requires scan_in { scan_in.0 < length netlist.old.lists.nets }
    requires into { into.0 < length netlist.old.lists.nets }
    requires undriven { IsFree netlist.old.lists into.0 }
    ensures shift { result.0 ≡ length netlist.old.lists.nets }
    ensures added { Appended netlist.old netlist.new (control_count cell)
        (control_cells cell (length netlist.old.lists.nets) (cell_count netlist.old.lists) scan.now core active_high into scan_in) }
    ensures dense { IsDense netlist.new.lists }
    ensures free { (net : ℕ) → net ≢ into.0 → net < length netlist.old.lists.nets
        → IsFree netlist.old.lists net → IsFree netlist.new.lists net }
{
    let given = [
        Feed::Net(scan.tck),
        Feed::Net(scan.trst),
        Feed::Net(scan.capture),
        Feed::Net(scan.shift),
        Feed::Net(scan.update),
        Feed::Net(scan_in),
        core,
        Feed::Net(scan.extest),
        Feed::Net(scan.m_out),
        Feed::Const(!active_high),
        Feed::Net(scan.hiz),
    ];
    match cell {
        BoundaryKind::Bc2 => add_cell_onto(netlist, &BC_2_CONTROL, BC_2_LEVEL, &given, into),
        _ => add_cell_onto(netlist, &BC_1_CONTROL, BC_1_LEVEL, &given, into),
    }
}

/// Adds a BC_7 cell of an inout to a dense netlist, which gives `into` the data of the inout's driver. `enable` is the
/// core's control of that driver, which 1 enables where it is active high, and else 0. It answers the net of the cell's
/// shift bit; the update bit is on the third net after it. Nothing drives `into` before.
pub fn add_bidir_cell(
    netlist: &mut Netlist,
    scan: &ScanNets,
    core: Feed,
    enable: Feed,
    active_high: bool,
    pin: NetId,
    into: NetId,
    scan_in: NetId,
) -> NetId
    requires dense { IsDense netlist.old.lists }
    requires nets { 7 ≤ netlist.old.spare.nets }
    requires cells { 8 ≤ netlist.old.spare.cells }
    requires scan { AreScanNetsBelow (length netlist.old.lists.nets) scan.now }
    requires core { IsFeedBelow (length netlist.old.lists.nets) core }
    requires enable { IsFeedBelow (length netlist.old.lists.nets) enable }
    requires pin { pin.0 < length netlist.old.lists.nets }
    requires scan_in { scan_in.0 < length netlist.old.lists.nets }
    requires into { into.0 < length netlist.old.lists.nets }
    requires undriven { IsFree netlist.old.lists into.0 }
    ensures shift { result.0 ≡ length netlist.old.lists.nets }
    ensures added { Appended netlist.old netlist.new 7
        (bidir_cells (length netlist.old.lists.nets) (cell_count netlist.old.lists) scan.now core enable active_high pin into scan_in) }
    ensures dense { IsDense netlist.new.lists }
    ensures free { (net : ℕ) → net ≢ into.0 → net < length netlist.old.lists.nets
        → IsFree netlist.old.lists net → IsFree netlist.new.lists net }
{
    let given = [
        Feed::Net(scan.tck),
        Feed::Net(scan.trst),
        Feed::Net(scan.capture),
        Feed::Net(scan.shift),
        Feed::Net(scan.update),
        Feed::Net(scan_in),
        core,
        Feed::Net(scan.extest),
        Feed::Net(scan.m_out),
        Feed::Net(pin),
        enable,
    ];
    if active_high {
        add_cell_onto(netlist, &BC_7_HIGH, UPDATES, &given, into)
    } else {
        add_cell_onto(netlist, &BC_7_LOW, UPDATES, &given, into)
    }
}
