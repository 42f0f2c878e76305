ghost use Rattle.std.specs.Prelude.{◌≡◌, ℕ, ◌<◌, ◌≤◌, ◌-◌, ◌^◌, length, map, replicate, option_map, get_or, slice_get, slice_set, IsSome, MatchOption, IfSome, Some, false, ⊤};
ghost use Rattle.linked_cells.specs.netlist_model.declared.Feed.TheVariants.{Const as Fixed};
ghost use Rattle.linked_cells.specs.netlist_model.declared.Reader.{Reader as ReaderView};
ghost use Rattle.linked_cells.specs.netlist_model.Lists.{live_cell};
ghost use Rattle.linked_cells.specs.Links.{Threaded};
ghost use Rattle.linked_cells.specs.PlacesLaws.{place_at};
ghost use Rattle.linked_cells.specs.Cells.{slot_at, first_at, driver_at, cells_of, blank_slot, net_view, IsFeedThere, KeepsNets};
ghost use Rattle.netlist_arena.specs.Arena.{live_count};
ghost use Rattle.netlist_arena.specs.Adds.{PutsCell};
ghost use Rattle.netlist_arena.specs.Drivers.{DriverAdded, DriverDropped, with_output};

use linked_cells::lower_netlist_model::{CellId, Feed, NetId};
use linked_cells::places::Places;
use linked_cells::{Cell, Net, give_all, set_driver};

// Puts a cell whose operands are the constant 0 in a place of its own, and gives it these operands.
pub(crate) fn add_loose(
    cells: &mut Places<Cell>,
    nets: &mut Places<Net>,
    cell: Cell,
    feeds: &[Feed],
) -> CellId
    requires threaded { Threaded (slot_at cells.old.items) (first_at nets.old.items) }
    requires room { 0 < cells.old.spare }
    requires blank { cell.slots ≡ replicate (length feeds.now) blank_slot }
    requires few { length feeds.now < 2 ^ 32 }
    requires feeds { (place : ℕ) → place < length feeds.now
        → IsFeedThere nets.old.items (get_or feeds.now place (Fixed false)) }
    ensures threaded { Threaded (slot_at cells.new.items) (first_at nets.new.items) }
    ensures puts { PutsCell (cells_of cells.old.items) (cells_of cells.new.items)
        (live_count (cells_of cells.old.items)) result.0
        (record { kind = cell.kind; name = cell.name; feeds = feeds.now; output = cell.output }) }
    ensures nets { KeepsNets nets.old.items nets.new.items }
    ensures spare_cells { cells.new.spare ≡ cells.old.spare - 1 }
    ensures spare_nets { nets.new.spare ≡ nets.old.spare }
{
    let id = CellId(cells.put(cell));
    give_all(cells, nets, id, feeds);
    id
}

// Notes a new driver at the net that it drives, if there is one.
pub(crate) fn note_driver(nets: &mut Places<Net>, output: Option<NetId>, id: CellId)
    requires { MatchOption output ⊤ (λ net. IsSome (place_at nets.old.items net.0)) }
    ensures driver { DriverAdded (driver_at nets.old.items) (driver_at nets.new.items) output id.0 }
    ensures firsts { (n : ℕ) → first_at nets.new.items n ≡ first_at nets.old.items n }
    ensures views { map (option_map net_view) nets.new.items ≡ map (option_map net_view) nets.old.items }
    ensures spare { nets.new.spare ≡ nets.old.spare }
{
    if let Some(net) = output {
        set_driver(nets, net, Some(id));
    }
}

// How many operands a cell has.
pub(crate) fn count_of(cells: &Places<Cell>, id: CellId) -> u32
    requires { IsSome (place_at cells.now.items id.0) }
    ensures { IfSome (place_at cells.now.items id.0) (λ cell. result ≡ length cell.slots) }
{
    match cells.get(id.0) {
        Some(cell) => cell.count(),
        None => unreachable!(),
    }
}

// The net that a cell drives.
pub(crate) fn output_of(cells: &Places<Cell>, id: CellId) -> Option<NetId>
    requires { IsSome (place_at cells.now.items id.0) }
    ensures { IfSome (place_at cells.now.items id.0) (λ cell. result ≡ cell.output) }
{
    match cells.get(id.0) {
        Some(cell) => cell.output(),
        None => unreachable!(),
    }
}

// Notes that nothing drives a net, if there is one.
pub(crate) fn drop_driver(nets: &mut Places<Net>, output: Option<NetId>)
    requires { MatchOption output ⊤ (λ net. IsSome (place_at nets.old.items net.0)) }
    ensures driver { DriverDropped (driver_at nets.old.items) (driver_at nets.new.items) output }
    ensures firsts { (n : ℕ) → first_at nets.new.items n ≡ first_at nets.old.items n }
    ensures views { map (option_map net_view) nets.new.items ≡ map (option_map net_view) nets.old.items }
    ensures spare { nets.new.spare ≡ nets.old.spare }
{
    if let Some(net) = output {
        set_driver(nets, net, None);
    }
}

// Makes a cell drive this net.
pub(crate) fn drive(cells: &mut Places<Cell>, id: CellId, net: NetId)
    requires { IsSome (place_at cells.old.items id.0) }
    ensures slots { (r : ReaderView) → slot_at cells.new.items r ≡ slot_at cells.old.items r }
    ensures cells { cells_of cells.new.items ≡ slice_set (cells_of cells.old.items) id.0
        (option_map (with_output (Some net)) (live_cell (slice_get (cells_of cells.old.items) id.0))) }
    ensures spare { cells.new.spare ≡ cells.old.spare }
{
    let cell = cells.value_mut(id.0);
    cell.set_output(Some(net));
}
