ghost use Rattle.std.specs.Prelude.{◌≡◌, ◌≢◌, ℕ, ⊤, IsSome, Some, MatchOption};
ghost use Rattle.netlist_model.specs.declared.Reader.{Reader as ReaderView};
ghost use Rattle.linked_cells.specs.Links.{Writes, SetsBefore, SetsAfter, WritesFirst};
ghost use Rattle.linked_cells.specs.PlacesLaws.{place_at};
ghost use Rattle.linked_cells.specs.Cells.{slot_at, first_at, driver_at, WritesDriver, cells_of, with_slot_feed, IsSlotThere, SameShapes, KeepsNets};

use crate::places::Places;
use crate::{Cell, Link, Net, Slot};
use netlist_model::{CellId, NetId, Reader};

/// The slot of a reader.
pub fn slot_of(cells: &Places<Cell>, reader: Reader) -> Slot
    requires { IsSlotThere cells.now.items reader }
    ensures { slot_at cells.now.items reader ≡ Some result }
{
    match cells.get(reader.cell.0) {
        Some(cell) => cell.slot(reader.place),
        None => unreachable!(),
    }
}

// The link to the slot of a reader.
pub(crate) fn link_to(cells: &Places<Cell>, reader: Reader) -> Link
    requires { IsSlotThere cells.now.items reader }
    ensures { result ≡ Some reader }
{
    match cells.get(reader.cell.0) {
        Some(cell) => {
            let count = cell.count();
            prove!(reader.place < count);
            Link::to(reader)
        }
        None => unreachable!(),
    }
}

// Writes the slot of a reader.
pub(crate) fn write_slot(cells: &mut Places<Cell>, reader: Reader, slot: Slot)
    requires { IsSlotThere cells.old.items reader }
    ensures writes { Writes (slot_at cells.old.items) (slot_at cells.new.items) reader slot }
    ensures cells { cells_of cells.new.items
        ≡ with_slot_feed reader.cell.0 reader.place slot.feed (cells_of cells.old.items) }
    ensures shapes { SameShapes cells.old.items cells.new.items }
    ensures spare { cells.new.spare ≡ cells.old.spare }
{
    let cell = cells.value_mut(reader.cell.0);
    cell.write(reader.place, slot);
}

// Writes the link back of a reader, if there is one.
pub(crate) fn set_before(cells: &mut Places<Cell>, reader: Link, before: Link)
    requires { MatchOption reader ⊤ (IsSlotThere cells.old.items) }
    ensures sets { SetsBefore (slot_at cells.old.items) (slot_at cells.new.items) reader before }
    ensures cells { cells_of cells.new.items ≡ cells_of cells.old.items }
    ensures shapes { SameShapes cells.old.items cells.new.items }
    ensures spare { cells.new.spare ≡ cells.old.spare }
{
    if let Some(reader) = reader.reader() {
        let found = slot_of(cells, reader);
        write_slot(
            cells,
            reader,
            Slot {
                feed: found.feed,
                before,
                after: found.after,
            },
        );
    }
}

// Writes the link forward of a reader, if there is one.
pub(crate) fn set_after(cells: &mut Places<Cell>, reader: Link, after: Link)
    requires { MatchOption reader ⊤ (IsSlotThere cells.old.items) }
    ensures sets { SetsAfter (slot_at cells.old.items) (slot_at cells.new.items) reader after }
    ensures cells { cells_of cells.new.items ≡ cells_of cells.old.items }
    ensures shapes { SameShapes cells.old.items cells.new.items }
    ensures spare { cells.new.spare ≡ cells.old.spare }
{
    if let Some(reader) = reader.reader() {
        let found = slot_of(cells, reader);
        write_slot(
            cells,
            reader,
            Slot {
                feed: found.feed,
                before: found.before,
                after,
            },
        );
    }
}

/// The first reader of a net.
pub fn first(nets: &Places<Net>, net: NetId) -> Link
    requires { IsSome (place_at nets.now.items net.0) }
    ensures { result ≡ first_at nets.now.items net.0 }
{
    match nets.get(net.0) {
        Some(net) => net.first,
        None => unreachable!(),
    }
}

// Writes the first reader of a net.
pub(crate) fn set_first(nets: &mut Places<Net>, net: NetId, first: Link)
    requires { IsSome (place_at nets.old.items net.0) }
    ensures writes { WritesFirst (first_at nets.old.items) (first_at nets.new.items) net.0 first }
    ensures nets { KeepsNets nets.old.items nets.new.items }
    ensures spare { nets.new.spare ≡ nets.old.spare }
{
    let found = nets.value_mut(net.0);
    found.first = first;
}

/// The driver of a net.
pub fn driver(nets: &Places<Net>, net: NetId) -> Option<CellId>
    requires { IsSome (place_at nets.now.items net.0) }
    ensures { result ≡ driver_at nets.now.items net.0 }
{
    match nets.get(net.0) {
        Some(net) => net.driver,
        None => unreachable!(),
    }
}

/// Writes the driver of a net.
pub fn set_driver(nets: &mut Places<Net>, net: NetId, driver: Option<CellId>)
    requires { IsSome (place_at nets.old.items net.0) }
    ensures writes { WritesDriver nets.old.items nets.new.items net.0 driver }
    ensures spare { nets.new.spare ≡ nets.old.spare }
{
    let found = nets.value_mut(net.0);
    found.driver = driver;
}
