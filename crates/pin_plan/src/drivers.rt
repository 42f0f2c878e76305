// The three-state gate that drives each net.
ghost use Rattle.std.specs.Prelude.{◌≡◌, [], IfOk, length};
ghost use Rattle.netlist_model.specs.Lists.{cell_at};
ghost use Rattle.netlist_arena.specs.Looks.{IsLive};
ghost use Rattle.plan_fitting.specs.Rows.{three_state};
ghost use Rattle.pin_plan.specs.Tables as tables;
ghost use Rattle.pin_plan.specs.Tables.{AreDrivers, AreDriversAmong, with_driver};

use cell_library::Kind;
use control_cells::Driver;
use netlist_arena::Netlist;
use netlist_model::{CellId, Feed};
use std::alloc::Global;
use texts::OutOfMemory;

// Whether 1 enables the gate, if it is a three-state gate.
fn polarity(kind: Kind) -> Option<bool>
    ensures { result ≡ tables.polarity kind }
{
    match kind {
        Kind::Bufif1 => Some(true),
        Kind::Bufif0 => Some(false),
        _ => None,
    }
}

// The driver that a cell is, if it is a three-state gate.
fn gate_driver(netlist: &Netlist, cell: CellId) -> Option<Driver>
    requires { IsLive netlist.now.lists cell.0 }
    ensures { result ≡ three_state (cell_at netlist.now.lists cell.0) }
{
    let _count = netlist.feed_count(cell);
    let active_high = polarity(netlist.kind(cell))?;
    Some(Driver {
        core: netlist.feed(cell, 0),
        operand: netlist.feed(cell, 1),
        active_high,
    })
}

// Notes what has this number, if it is a cell, at the net that it drives.
fn note_driver(drivers: &mut [Option<Driver>], netlist: &Netlist, cell: CellId)
    requires { length drivers.old ≡ length netlist.now.lists.nets }
    ensures { drivers.new ≡ with_driver (cell_at netlist.now.lists cell.0) drivers.old }
{
    if !netlist.is_live(cell) {
        return;
    }
    if let Some(net) = netlist.output(cell) {
        drivers[net.0 as usize] = gate_driver(netlist, cell);
    }
}

// Notes each cell at the net that it drives, from the last to the first.
fn note_each(drivers: &mut [Option<Driver>], netlist: &Netlist)
    requires { AreDriversAmong netlist.now.lists [] drivers.old }
    ensures { AreDrivers netlist.now.lists drivers.new }
{
    netlist.is_laid_out();
    for number in (0..netlist.cell_bound()).rev() {
        note_driver(drivers, netlist, CellId(number));
    }
}

/// Of each net the three-state gate that drives it, in one pass over the cells.
pub fn drivers_of(alloc: Global, netlist: &Netlist) -> Result<Vec<Option<Driver>>, OutOfMemory>
    ensures { IfOk result (λ drivers. AreDrivers netlist.now.lists drivers.items) }
{
    let mut drivers = vec![in alloc; None; netlist.net_count() as usize]?;
    note_each(drivers.as_mut_slice(), netlist);
    Ok(drivers)
}
