ghost use Rattle.std.specs.Prelude.{◌≡◌, ◌+◌, ◌*◌, ◌^◌, ◌<◌, [], ◌∷◌, ⊤, length, MatchOption};
ghost use Rattle.netlist_model.specs.declared.Feed.TheVariants.{Net};
ghost use Rattle.stitched_netlist.specs.Sites as sites;
ghost use Rattle.stitched_netlist.specs.Sides as model;
ghost use Rattle.core_sides.specs.Pins.{IsPinThere, ArePinsThere, AreFew, between};
ghost use Rattle.core_sides.specs.Ready.{CanStandBehind, HasDriver, with_core_behind};
ghost use Rattle.core_sides.specs.Steps.{fed_driver, stood_by, CanStandBy};

use crate::sides::{level_net, row_net, side_count, site_of};
use netlist_arena::Netlist;
use netlist_model::{Feed, NetId, Source};
use stitched_netlist::lower_plan_fitting::FitRow;
use stitched_netlist::model::Site;

// Gives the driver of a net its data and its control.
fn feed_driver(netlist: &mut Netlist, net: NetId, value: NetId, level: NetId)
    requires net { net.0 < length netlist.old.lists.nets }
    requires driver { HasDriver netlist.old.lists net.0 }
    requires value { value.0 < length netlist.old.lists.nets }
    requires level { level.0 < length netlist.old.lists.nets }
    ensures lists { netlist.new.lists ≡ fed_driver net (Net value ∷ Net level ∷ []) netlist.old.lists }
    ensures spare { netlist.new.spare ≡ netlist.old.spare }
{
    netlist.is_laid_out();
    match netlist.driver(net) {
        Source::Cell(gate) => {
            netlist.connect(gate, 0, Feed::Net(value));
            netlist.connect(gate, 1, Feed::Net(level));
        }
        _ => unreachable!(),
    }
}

// The core behind the cell of a row.
fn stand_row(netlist: &mut Netlist, rows: &[FitRow], first: NetId, row: &FitRow, side: NetId)
    requires pin { IsPinThere netlist.old.lists.ports row.now }
    requires pins { ArePinsThere netlist.old.lists.ports rows.now }
    requires few { AreFew rows.now }
    requires fits { first.0 + 2 * length rows.now < 2 ^ 32 }
    requires control { MatchOption row.now.control ⊤ (λ number. number < length rows.now) }
    requires ready { CanStandBy netlist.old.lists (sites.row_net netlist.old.lists.ports row.now)
        (sites.site_of netlist.old.lists.ports row.now)
        side (model.level_net (between netlist.old.lists.ports rows.now first) row.now) }
    ensures lists { netlist.new.lists ≡ stood_by (sites.row_net netlist.old.lists.ports row.now)
        (sites.site_of netlist.old.lists.ports row.now)
        side (model.level_net (between netlist.old.lists.ports rows.now first) row.now) netlist.old.lists }
    ensures spare { netlist.new.spare ≡ netlist.old.spare }
{
    let Some(net) = row_net(netlist, row) else {
        return;
    };
    match site_of(netlist, row) {
        Site::Input => netlist.move_readers(net, side),
        Site::Output | Site::AddedDriver => {
            netlist.move_driver(net, side);
            netlist.move_readers(net, side);
        }
        Site::Driver | Site::Inout => {
            let level = level_net(netlist, rows, first, row);
            feed_driver(netlist, net, side, level);
        }
        Site::Observed | Site::Control => {}
    }
}

/// Puts the core behind the cells of these rows. The nets between it and them are there from `first` on, and
/// nothing drives them.
pub fn stand_behind(netlist: &mut Netlist, rows: &[FitRow], first: NetId)
    requires { CanStandBehind netlist.old.lists rows.now first.0 }
    ensures lists { netlist.new.lists ≡ with_core_behind
        (between netlist.old.lists.ports rows.now first) netlist.old.lists }
    ensures spare { netlist.new.spare ≡ netlist.old.spare }
{
    let mut side = first.0;
    for row in rows {
        let count = side_count(site_of(netlist, row));
        stand_row(netlist, rows, first, row, NetId(side));
        side += count;
    }
}
