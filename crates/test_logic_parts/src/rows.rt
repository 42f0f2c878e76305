// The boundary register, from TDI to TDO.

ghost use Rattle.std.specs.Prelude.{◌≡◌, ◌≢◌, ℕ, ◌+◌, ◌*◌, ◌<◌, ◌≤◌, ◌^◌, length, IsSome};
ghost use Rattle.netlist_model.specs.Lists.{cell_count};
ghost use Rattle.netlist_model.specs.Contained.{IsDense};
ghost use Rattle.netlist_arena.specs.Adds.{IsFree};
ghost use Rattle.gate_parts.specs.Appended.{Appended};
ghost use Rattle.boundary_cells.specs.Cells.{AreScanNetsBelow, stage_count};
ghost use Rattle.core_sides.specs.stitched_netlist.declared.model.Site.TheVariants as places;
ghost use Rattle.core_sides.specs.stitched_netlist.Sites as sites;
ghost use Rattle.core_sides.specs.stitched_netlist.Sides as sides;
ghost use Rattle.core_sides.specs.stitched_netlist.ModelRows as model;
ghost use Rattle.core_sides.specs.Pins.{IsPinThere, between};
ghost use Rattle.test_logic_parts.specs.Rows.{into_at, into_of, into_from, AreFree, CanBeDriven, CanTakeRows, IsJoined, KeepsFree};

use boundary_cells::{
    add_bidir_cell, add_control_cell, add_input_cell, add_observe_cell, add_output_cell,
};
use cell_library::Kind;
use core_sides::lower_stitched_netlist::Site;
use core_sides::sides::{core_feed, level_net, row_net, side_count, site_of};
use gate_parts::{add_driver, appended_count, appended_more, appended_none};
use netlist_arena::Netlist;
use netlist_model::{Feed, NetId};
use plan_fitting::FitRow;
use test_logic::ScanNets;

// What stands at the cell of a row: the net of its bit, the first net between the core and the cell, and the next
// bit towards TDI.
#[derive(Clone, Copy)]
struct Place {
    net: NetId,
    side: NetId,
    next: NetId,
}

// The net of a row's bit; of a control cell, which has none, the first net.
fn net_at(netlist: &Netlist, rows: &[FitRow], first: NetId, row: &FitRow) -> NetId
    requires { IsPinThere netlist.now.lists.ports row.now }
    ensures { result ≡ model.net_at (between netlist.now.lists.ports rows.now first) row.now }
{
    match row_net(netlist, row) {
        Some(net) => net,
        None => NetId(0),
    }
}

// Adds the cell of an output and a driver behind it, which takes its data from the second net between.
fn add_driven_output(
    netlist: &mut Netlist,
    rows: &[FitRow],
    first: NetId,
    scan: &ScanNets,
    row: &FitRow,
    at: Place,
) -> NetId
    requires dense { IsDense netlist.old.lists }
    requires nets { 6 ≤ netlist.old.spare.nets }
    requires cells { 8 ≤ netlist.old.spare.cells }
    requires joined { IsJoined (between netlist.old.lists.ports rows.now first) scan.now
        (length netlist.old.lists.nets) row.now at.net at.next }
    requires level { (sides.level_net (between netlist.old.lists.ports rows.now first) row.now).0 < length
        netlist.old.lists.nets }
    requires side { at.side.0 + 1 < 2 ^ 32 }
    requires into { CanBeDriven netlist.old.lists
        (into_at (between netlist.old.lists.ports rows.now first) at.side.0 row.now places.AddedDriver) }
    ensures shift { result.0 ≡ length netlist.old.lists.nets }
    ensures added { Appended netlist.old netlist.new (stage_count row.now.cell)
        (model.site_cells (between netlist.old.lists.ports rows.now first) scan.now (length netlist.old.lists.nets)
        (cell_count netlist.old.lists) at.side.0 row.now at.next places.AddedDriver) }
    ensures dense { IsDense netlist.new.lists }
    ensures free { KeepsFree netlist.old.lists netlist.new.lists
        (into_at (between netlist.old.lists.ports rows.now first) at.side.0 row.now places.AddedDriver) }
{
    let into = NetId(at.side.0 + 1);
    let level = level_net(netlist, rows, first, row);
    let core = Feed::Net(at.side);
    let shift = add_output_cell(netlist, scan, row.cell, core, into, at.next);
    let feeds = [Feed::Net(into), Feed::Net(level)];
    add_driver(netlist, Kind::Bufif1, &feeds, at.net);
    shift
}

// Adds the cell of an inout.
fn add_inout(
    netlist: &mut Netlist,
    rows: &[FitRow],
    first: NetId,
    scan: &ScanNets,
    row: &FitRow,
    at: Place,
) -> NetId
    requires dense { IsDense netlist.old.lists }
    requires nets { 7 ≤ netlist.old.spare.nets }
    requires cells { 8 ≤ netlist.old.spare.cells }
    requires joined { IsJoined (between netlist.old.lists.ports rows.now first) scan.now
        (length netlist.old.lists.nets) row.now at.net at.next }
    requires control { IsSome row.now.control }
    requires free { AreFree netlist.old.lists
        (into_at (between netlist.old.lists.ports rows.now first) at.side.0 row.now places.Inout) }
    ensures shift { result.0 ≡ length netlist.old.lists.nets }
    ensures added { Appended netlist.old netlist.new 7
        (model.site_cells (between netlist.old.lists.ports rows.now first) scan.now (length netlist.old.lists.nets)
        (cell_count netlist.old.lists) at.side.0 row.now at.next places.Inout) }
    ensures dense { IsDense netlist.new.lists }
    ensures free { (net : ℕ) → net ≢ at.side.0 → net < length netlist.old.lists.nets
        → IsFree netlist.old.lists net
        → IsFree netlist.new.lists net }
{
    let Some(number) = row.control else {
        unreachable!()
    };
    let control = &rows[number as usize];
    let core = core_feed(netlist, rows, first, row);
    let enable = core_feed(netlist, rows, first, control);
    add_bidir_cell(
        netlist,
        scan,
        core,
        enable,
        control.active_high,
        at.net,
        at.side,
        at.next,
    )
}

// Adds the cell of a row, and answers the net of its shift bit.
fn add_row(
    netlist: &mut Netlist,
    rows: &[FitRow],
    first: NetId,
    scan: &ScanNets,
    row: &FitRow,
    at: Place,
) -> NetId
    requires dense { IsDense netlist.old.lists }
    requires nets { 7 ≤ netlist.old.spare.nets }
    requires cells { 8 ≤ netlist.old.spare.cells }
    requires joined { IsJoined (between netlist.old.lists.ports rows.now first) scan.now
        (length netlist.old.lists.nets) row.now at.net at.next }
    requires pin { IsPinThere netlist.old.lists.ports row.now }
    requires side { at.side.0 + sites.row_sides netlist.old.lists.ports row.now ≤ length
        netlist.old.lists.nets }
    requires into { CanBeDriven netlist.old.lists
        (into_of (between netlist.old.lists.ports rows.now first) at.side.0 row.now) }
    requires fits { at.side.0 + 1 < 2 ^ 32 }
    ensures shift { result.0 ≡ length netlist.old.lists.nets }
    ensures added { Appended netlist.old netlist.new (model.row_nets netlist.old.lists.ports row.now)
        (model.row_cells (between netlist.old.lists.ports rows.now first) scan.now (length netlist.old.lists.nets)
        (cell_count netlist.old.lists) at.side.0 row.now at.next) }
    ensures dense { IsDense netlist.new.lists }
    ensures free { KeepsFree netlist.old.lists netlist.new.lists
        (into_of (between netlist.old.lists.ports rows.now first) at.side.0 row.now) }
{
    let Place { net, side, next } = at;
    match site_of(netlist, row) {
        Site::Observed => add_observe_cell(netlist, scan, net, next),
        Site::Input => add_input_cell(netlist, scan, net, side, next),
        Site::Output => add_output_cell(netlist, scan, row.cell, Feed::Net(side), net, next),
        Site::AddedDriver => add_driven_output(netlist, rows, first, scan, row, at),
        Site::Driver => {
            let core = core_feed(netlist, rows, first, row);
            add_output_cell(netlist, scan, row.cell, core, side, next)
        }
        Site::Inout => add_inout(netlist, rows, first, scan, row, at),
        Site::Control => {
            let core = core_feed(netlist, rows, first, row);
            add_control_cell(netlist, scan, row.cell, core, row.active_high, side, next)
        }
    }
}

/// Adds the cells of all rows to a dense netlist, the one nearest TDI first, and answers the net of the shift
/// bit nearest TDO. The nets between the core and the cells run from `first` up to `end`. Other nets that
/// were free stay so.
pub fn add_rows(
    netlist: &mut Netlist,
    rows: &[FitRow],
    first: NetId,
    scan: &ScanNets,
    end: NetId,
    tdi: NetId,
) -> NetId
    requires dense { IsDense netlist.old.lists }
    requires rows { CanTakeRows netlist.old (between netlist.old.lists.ports rows.now first) }
    requires scan { AreScanNetsBelow (length netlist.old.lists.nets) scan.now }
    requires end { end.0 ≡ first.0 + sites.sides_of netlist.old.lists.ports rows.now }
    requires tdi { tdi.0 < length netlist.old.lists.nets }
    ensures last { result ≡ model.last_bit netlist.old.lists.ports
        (length netlist.old.lists.nets) tdi rows.now }
    ensures added { Appended netlist.old netlist.new (model.nets_of_rows netlist.old.lists.ports rows.now)
        (model.rows_cells (between netlist.old.lists.ports rows.now first) scan.now (length netlist.old.lists.nets)
        (cell_count netlist.old.lists) tdi first.0 rows.now) }
    ensures dense { IsDense netlist.new.lists }
    ensures free { KeepsFree netlist.old.lists netlist.new.lists
        (into_from (between netlist.old.lists.ports rows.now first) first.0 rows.now) }
{
    appended_none();
    appended_count();
    appended_more();
    let mut last = tdi;
    let mut side = end.0;
    for place in (0..rows.len()).rev() {
        let row = &rows[place];
        side -= side_count(site_of(netlist, row));
        let at = Place {
            net: net_at(netlist, rows, first, row),
            side: NetId(side),
            next: last,
        };
        last = add_row(netlist, rows, first, scan, row, at);
    }
    last
}
