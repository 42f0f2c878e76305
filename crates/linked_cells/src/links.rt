ghost use Rattle.std.specs.Prelude.{◌≡◌, ◌≢◌, ℕ, ◌<◌, ◌^◌, [], length, get_or, None, Some, false, IsSome, map, option_map};
ghost use Rattle.netlist_model.specs.declared.Feed.TheVariants.{Net as OnNet, Const as Fixed};
ghost use Rattle.linked_cells.specs.Links.{Threaded, SetsFirst, IsMoving};
ghost use Rattle.netlist_model.specs.declared.NetId.{NetId as NetNumber};
ghost use Rattle.linked_cells.specs.PlacesLaws.{place_at};
ghost use Rattle.linked_cells.specs.Cells.{slot_at, first_at, slot_count, cells_of, SameShapes, with_slot_feed, with_moved_feeds, feed_in, given_upto, KeepsNets, IsLoose, IsOnNet, IsSlotThere, IsFeedThere};

use crate::places::Places;
use crate::slots::{first, link_to, set_after, set_before, set_first, slot_of, write_slot};
use crate::{Cell, Link, Net, Slot};
use netlist_model::{CellId, Feed, NetId, Reader};

// Links a loose slot in front of the readers of a net.
fn link(cells: &mut Places<Cell>, nets: &mut Places<Net>, reader: Reader, net: NetId)
    requires threaded { Threaded (slot_at cells.old.items) (first_at nets.old.items) }
    requires loose { IsLoose cells.old.items reader }
    requires net { IsSome (place_at nets.old.items net.0) }
    ensures threaded { Threaded (slot_at cells.new.items) (first_at nets.new.items) }
    ensures cells { cells_of cells.new.items
        ≡ with_slot_feed reader.cell.0 reader.place (OnNet net) (cells_of cells.old.items) }
    ensures nets { KeepsNets nets.old.items nets.new.items }
    ensures spare_cells { cells.new.spare ≡ cells.old.spare }
    ensures spare_nets { nets.new.spare ≡ nets.old.spare }
{
    let next = first(nets, net);
    let link = link_to(cells, reader);
    write_slot(
        cells,
        reader,
        Slot {
            feed: Feed::Net(net),
            before: Link::none(),
            after: next,
        },
    );
    set_before(cells, next, link);
    set_first(nets, net, link);
}

// Unlinks a slot from the readers of its net, and leaves it loose.
fn unlink(cells: &mut Places<Cell>, nets: &mut Places<Net>, reader: Reader, net: NetId)
    requires threaded { Threaded (slot_at cells.old.items) (first_at nets.old.items) }
    requires on { IsOnNet cells.old.items reader net }
    requires net { IsSome (place_at nets.old.items net.0) }
    ensures threaded { Threaded (slot_at cells.new.items) (first_at nets.new.items) }
    ensures loose { IsLoose cells.new.items reader }
    ensures cells { cells_of cells.new.items
        ≡ with_slot_feed reader.cell.0 reader.place (Fixed false) (cells_of cells.old.items) }
    ensures nets { KeepsNets nets.old.items nets.new.items }
    ensures spare_cells { cells.new.spare ≡ cells.old.spare }
    ensures spare_nets { nets.new.spare ≡ nets.old.spare }
{
    let found = slot_of(cells, reader);
    write_slot(cells, reader, Slot::loose(Feed::Const(false)));
    set_after(cells, found.before, found.after);
    set_before(cells, found.after, found.before);
    pass_first(nets, net, found.before, found.after);
}

// Makes the slot after the first reader of a net, where nothing comes before it.
fn pass_first(nets: &mut Places<Net>, net: NetId, before: Link, after: Link)
    requires { IsSome (place_at nets.old.items net.0) }
    ensures sets { SetsFirst (first_at nets.old.items) (first_at nets.new.items) net.0 before after }
    ensures nets { KeepsNets nets.old.items nets.new.items }
    ensures spare { nets.new.spare ≡ nets.old.spare }
{
    match before.reader() {
        Some(_) => {}
        None => set_first(nets, net, after),
    }
}

/// Moves all readers of a net to another, in front of its own.
pub fn move_all(cells: &mut Places<Cell>, nets: &mut Places<Net>, from: NetId, to: NetId)
    requires threaded { Threaded (slot_at cells.old.items) (first_at nets.old.items) }
    requires differ { from.0 ≢ to.0 }
    requires from { IsSome (place_at nets.old.items from.0) }
    requires to { IsSome (place_at nets.old.items to.0) }
    ensures threaded { Threaded (slot_at cells.new.items) (first_at nets.new.items) }
    ensures cells { cells_of cells.new.items
        ≡ map (option_map (with_moved_feeds from to)) (cells_of cells.old.items) }
    ensures nets { KeepsNets nets.old.items nets.new.items }
    ensures spare_cells { cells.new.spare ≡ cells.old.spare }
    ensures spare_nets { nets.new.spare ≡ nets.old.spare }
{
    let start = first(nets, from);
    let next = first(nets, to);
    let last = turn_all(cells, start, from, to);
    set_after(cells, last, next);
    set_before(cells, next, last);
    set_first(nets, from, Link::none());
    set_first(nets, to, start.or(next));
}

// Makes each slot of a walk one of another net, and tells the last.
fn turn_all(cells: &mut Places<Cell>, start: Link, from: NetId, to: NetId) -> Link
    requires differ { from.0 ≢ to.0 }
    requires walk { IsMoving (slot_at cells.old.items) (slot_at cells.old.items) from.0 to.0 start start None
        (slot_count cells.old.items) }
    ensures walk { IsMoving (slot_at cells.old.items) (slot_at cells.new.items) from.0 to.0 start None result
        (slot_count cells.old.items) }
    ensures shapes { SameShapes cells.old.items cells.new.items }
    ensures spare { cells.new.spare ≡ cells.old.spare }
{
    let mut at = start;
    let mut last = Link::none();
    while let Some(reader) = at.reader() {
        let found = slot_of(cells, reader);
        write_slot(
            cells,
            reader,
            Slot {
                feed: Feed::Net(to),
                before: found.before,
                after: found.after,
            },
        );
        last = at;
        at = found.after;
    }
    last
}

// Makes a loose slot one of this feed.
fn give(cells: &mut Places<Cell>, nets: &mut Places<Net>, reader: Reader, feed: Feed)
    requires threaded { Threaded (slot_at cells.old.items) (first_at nets.old.items) }
    requires loose { IsLoose cells.old.items reader }
    requires feed { IsFeedThere nets.old.items feed }
    ensures threaded { Threaded (slot_at cells.new.items) (first_at nets.new.items) }
    ensures cells { cells_of cells.new.items
        ≡ with_slot_feed reader.cell.0 reader.place feed (cells_of cells.old.items) }
    ensures nets { KeepsNets nets.old.items nets.new.items }
    ensures spare_cells { cells.new.spare ≡ cells.old.spare }
    ensures spare_nets { nets.new.spare ≡ nets.old.spare }
{
    match feed {
        Feed::Net(net) => link(cells, nets, reader, net),
        Feed::Const(bit) => write_slot(cells, reader, Slot::loose(Feed::Const(bit))),
    }
}

// Takes a slot from the readers of its net, if it is on one, and leaves it loose.
fn take(cells: &mut Places<Cell>, nets: &mut Places<Net>, reader: Reader)
    requires threaded { Threaded (slot_at cells.old.items) (first_at nets.old.items) }
    requires there { IsSlotThere cells.old.items reader }
    requires net { (net : NetNumber) → feed_in (cells_of cells.old.items) reader.cell.0 reader.place ≡ Some (OnNet net)
        → IsSome (place_at nets.old.items net.0) }
    ensures threaded { Threaded (slot_at cells.new.items) (first_at nets.new.items) }
    ensures loose { IsLoose cells.new.items reader }
    ensures cells { cells_of cells.new.items
        ≡ with_slot_feed reader.cell.0 reader.place (Fixed false) (cells_of cells.old.items) }
    ensures nets { KeepsNets nets.old.items nets.new.items }
    ensures spare_cells { cells.new.spare ≡ cells.old.spare }
    ensures spare_nets { nets.new.spare ≡ nets.old.spare }
{
    let found = slot_of(cells, reader);
    match found.feed {
        Feed::Net(net) => unlink(cells, nets, reader, net),
        Feed::Const(_) => write_slot(cells, reader, Slot::loose(Feed::Const(false))),
    }
}

/// Makes an operand this one.
pub fn connect(cells: &mut Places<Cell>, nets: &mut Places<Net>, reader: Reader, feed: Feed)
    requires threaded { Threaded (slot_at cells.old.items) (first_at nets.old.items) }
    requires there { IsSlotThere cells.old.items reader }
    requires net { (net : NetNumber) → feed_in (cells_of cells.old.items) reader.cell.0 reader.place ≡ Some (OnNet net)
        → IsSome (place_at nets.old.items net.0) }
    requires feed { IsFeedThere nets.old.items feed }
    ensures threaded { Threaded (slot_at cells.new.items) (first_at nets.new.items) }
    ensures cells { cells_of cells.new.items
        ≡ with_slot_feed reader.cell.0 reader.place feed (cells_of cells.old.items) }
    ensures nets { KeepsNets nets.old.items nets.new.items }
    ensures spare_cells { cells.new.spare ≡ cells.old.spare }
    ensures spare_nets { nets.new.spare ≡ nets.old.spare }
{
    take(cells, nets, reader);
    give(cells, nets, reader, feed);
}

/// Gives the operands of a cell, which are the constant 0, these feeds.
pub fn give_all(cells: &mut Places<Cell>, nets: &mut Places<Net>, id: CellId, feeds: &[Feed])
    requires threaded { Threaded (slot_at cells.old.items) (first_at nets.old.items) }
    requires few { length feeds.now < 2 ^ 32 }
    requires blank { (place : ℕ) → place < length feeds.now
        → feed_in (cells_of cells.old.items) id.0 place ≡ Some (Fixed false) }
    requires feeds { (place : ℕ) → place < length feeds.now
        → IsFeedThere nets.old.items (get_or feeds.now place (Fixed false)) }
    ensures threaded { Threaded (slot_at cells.new.items) (first_at nets.new.items) }
    ensures cells { cells_of cells.new.items ≡ given_upto id.0 feeds.now (length feeds.now) (cells_of cells.old.items) }
    ensures nets { KeepsNets nets.old.items nets.new.items }
    ensures spare_cells { cells.new.spare ≡ cells.old.spare }
    ensures spare_nets { nets.new.spare ≡ nets.old.spare }
{
    for place in 0..feeds.len() {
        let reader = Reader {
            cell: id,
            place: place as u32,
        };
        give(cells, nets, reader, feeds[place]);
    }
}

/// Makes the operands of a cell the constant 0.
pub fn clear_all(cells: &mut Places<Cell>, nets: &mut Places<Net>, id: CellId, count: u32)
    requires threaded { Threaded (slot_at cells.old.items) (first_at nets.old.items) }
    requires count { (place : ℕ) → place < count → IsSome (feed_in (cells_of cells.old.items) id.0 place) }
    requires nets { (place : ℕ) (net : NetNumber) → feed_in (cells_of cells.old.items) id.0 place ≡ Some (OnNet net)
        → IsSome (place_at nets.old.items net.0) }
    ensures threaded { Threaded (slot_at cells.new.items) (first_at nets.new.items) }
    ensures cells { cells_of cells.new.items ≡ given_upto id.0 [] count (cells_of cells.old.items) }
    ensures nets { KeepsNets nets.old.items nets.new.items }
    ensures spare_cells { cells.new.spare ≡ cells.old.spare }
    ensures spare_nets { nets.new.spare ≡ nets.old.spare }
{
    for place in 0..count {
        take(cells, nets, Reader { cell: id, place });
    }
}
