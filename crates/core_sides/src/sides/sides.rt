// Where boundary cells stand, and the nets between the core and them.

ghost use Rattle.std.specs.Prelude.{◌≡◌, ◌+◌, ◌*◌, ◌<◌, ◌≤◌, ◌^◌, length, MatchOption, ⊤};
ghost use Rattle.stitched_netlist.specs.Sites as sites;
ghost use Rattle.stitched_netlist.specs.Sides as model;
ghost use Rattle.core_sides.specs.Pins.{IsPinThere, ArePinsThere, AreFew, between};

use cell_library::{BoundaryKind, Function};
use netlist_arena::Netlist;
use netlist_model::{Feed, NetId};
use stitched_netlist::lower_plan_fitting::FitRow;
use stitched_netlist::model::Site;

/// The net of a row's bit.
pub fn row_net(netlist: &Netlist, row: &FitRow) -> Option<NetId>
    requires { IsPinThere netlist.now.lists.ports row.now }
    ensures net { result ≡ sites.row_net netlist.now.lists.ports row.now }
    ensures below { MatchOption result ⊤ (λ net. net.0 < length netlist.now.lists.nets) }
{
    match row.pin {
        Some(pin) => Some(netlist.pin_net(pin)),
        None => None,
    }
}

// Whether what the core gives at a bit is its own net.
fn is_own_net(net: Option<NetId>, core: Option<Feed>) -> bool
    ensures { result ≡ sites.is_own_net net core }
{
    match (net, core) {
        (Some(net), Some(Feed::Net(other))) => net.0 == other.0,
        _ => false,
    }
}

fn input_site(cell: BoundaryKind) -> Site
    ensures { result ≡ sites.input_site cell }
{
    match cell {
        BoundaryKind::Bc1 => Site::Input,
        _ => Site::Observed,
    }
}

fn output_site(own: bool) -> Site
    ensures { result ≡ sites.output_site own }
{
    if own { Site::AddedDriver } else { Site::Driver }
}

/// Where the cell of a row stands.
pub fn site_of(netlist: &Netlist, row: &FitRow) -> Site
    requires { IsPinThere netlist.now.lists.ports row.now }
    ensures { result ≡ sites.site_of netlist.now.lists.ports row.now }
{
    let own = is_own_net(row_net(netlist, row), row.core);
    match row.function {
        Function::Input | Function::Clock => input_site(row.cell),
        Function::Output2 => Site::Output,
        Function::Output3 => output_site(own),
        Function::Bidir => Site::Inout,
        Function::Control => Site::Control,
    }
}

/// How many nets stand between the core and a cell.
pub fn side_count(site: Site) -> u32
    ensures value { result ≡ sites.side_count site }
    ensures few { result ≤ 2 }
{
    match site {
        Site::Observed => 0,
        Site::AddedDriver => 2,
        _ => 1,
    }
}

/// How many nets stand between the core and these cells.
pub fn sides_of(netlist: &Netlist, rows: &[FitRow]) -> u32
    requires pins { ArePinsThere netlist.now.lists.ports rows.now }
    requires few { AreFew rows.now }
    ensures value { result ≡ sites.sides_of netlist.now.lists.ports rows.now }
    ensures few { result ≤ 2 * length rows.now }
{
    let mut count = 0;
    for row in rows {
        count += side_count(site_of(netlist, row));
    }
    count
}

/// Whether the core's own net moves to the core's side of the cell.
pub fn is_moved(site: Site) -> bool
    ensures { result ≡ model.is_moved site }
{
    matches!(site, Site::Input | Site::Output | Site::AddedDriver)
}

// Whether the row moves this net.
fn moves(netlist: &Netlist, net: NetId, row: &FitRow) -> bool
    requires { IsPinThere netlist.now.lists.ports row.now }
    ensures { result ≡ model.moves netlist.now.lists.ports net.0 row.now }
{
    match row_net(netlist, row) {
        Some(own) => is_moved(site_of(netlist, row)) && own.0 == net.0,
        None => false,
    }
}

/// The net that the core has in the place of this one.
pub fn core_side(netlist: &Netlist, rows: &[FitRow], first: NetId, net: NetId) -> NetId
    requires pins { ArePinsThere netlist.now.lists.ports rows.now }
    requires few { AreFew rows.now }
    requires fits { first.0 + 2 * length rows.now < 2 ^ 32 }
    ensures value { result.0 ≡ model.core_side (between netlist.now.lists.ports rows.now first) net.0 }
{
    let mut side = first.0;
    for row in rows {
        if moves(netlist, net, row) {
            return NetId(side);
        }
        side += side_count(site_of(netlist, row));
    }
    net
}

/// What the core gives the cell of a row.
pub fn core_feed(netlist: &Netlist, rows: &[FitRow], first: NetId, row: &FitRow) -> Feed
    requires pins { ArePinsThere netlist.now.lists.ports rows.now }
    requires few { AreFew rows.now }
    requires fits { first.0 + 2 * length rows.now < 2 ^ 32 }
    ensures value { result ≡ model.core_feed (between netlist.now.lists.ports rows.now first) row.now }
{
    match row.core {
        Some(Feed::Net(net)) => Feed::Net(core_side(netlist, rows, first, net)),
        Some(Feed::Const(value)) => Feed::Const(value),
        None => Feed::Const(false),
    }
}

/// The net of the level that the row's control cell gives.
pub fn level_net(netlist: &Netlist, rows: &[FitRow], first: NetId, row: &FitRow) -> NetId
    requires pins { ArePinsThere netlist.now.lists.ports rows.now }
    requires few { AreFew rows.now }
    requires fits { first.0 + 2 * length rows.now < 2 ^ 32 }
    requires control { MatchOption row.now.control ⊤ (λ number. number < length rows.now) }
    ensures { result ≡ model.level_net (between netlist.now.lists.ports rows.now first) row.now }
{
    match row.control {
        Some(number) => {
            let before = sides_of(netlist, &rows[..number as usize]);
            NetId(first.0 + before)
        }
        None => first,
    }
}
