// Cells whose operand slots are linked to the other readers of their nets, and nets that hold their driver and their
// first reader, in numbered places.
// - `connect`, `give_all`, `clear_all` and `move_all` change exactly those operands, and afterwards the links of each
//   net again visit exactly the slots on it. `move_all` looks at the readers that move and at no other cell.
// - The links from a net's first reader visit each slot on the net once and no other (`links_visit_once`).
// - `copied_cells`, `copied_nets`: the same cells and nets, with their links and as much room.
// Contracts cite specs/Cells.antt and specs/Links.antt.
// Own: no chapter of a standard speaks of it.
// - `places`: values under numbers that they keep, in places of a slab.
#![tactic(auto)]

ghost use Rattle.std.specs.Prelude.{◌≡◌, None, false};
ghost use Rattle.linked_cells.specs.Links.{LinksVisitOnce};

mod copies;
mod link;
mod links;
pub mod lower_cell_library;
pub mod lower_netlist_model;
pub mod lower_texts;
pub mod places;
mod slots;

use crate::places::Places;
pub use copies::{copied_cells, copied_nets};
pub use link::Link;
pub use links::{clear_all, connect, give_all, move_all};
use netlist_model::lower_cell_library::Kind;
use netlist_model::{CellId, Feed, Name, NetId};
pub use slots::{driver, first, set_driver, slot_of};
use smallvec::SmallVec;
use std::alloc::{AllocError, Global};
use std::marker::Model;

/// An operand slot of a cell: its feed, and the slots before and after it among the readers of the same net.
#[derive(Clone, Copy)]
pub struct Slot {
    pub feed: Feed,
    pub before: Link,
    pub after: Link,
}

/// The slot with the constant 0, which stands in no list.
impl Default for Slot {
    ghost use Rattle.netlist_model.specs.declared.Feed.TheVariants.{Const};

    ghost is_default = { λ s. s ≡ record { feed = Const false; before = None; after = None } };

    fn default() -> Self {
        Slot::loose(Feed::Const(false))
    }
}

impl Slot {
    /// A slot of this feed without links.
    pub fn loose(feed: Feed) -> Slot
        ensures { result ≡ record { feed = feed; before = None; after = None } }
    {
        Slot {
            feed,
            before: Link::none(),
            after: Link::none(),
        }
    }
}

/// A net, with its driver and its first reader.
#[derive(Drop)]
pub struct Net {
    pub name: Name,
    pub index: Option<u32>,
    pub driver: Option<CellId>,
    pub first: Link,
}

impl Net {
    ghost use Rattle.std.specs.Prelude.{◌≡◌, None};

    /// A net that nothing drives and nothing reads.
    pub fn new(name: Name, index: Option<u32>) -> Net
        ensures { result ≡ record { name = name; index = index; driver = None; first = None } }
    {
        Net {
            name,
            index,
            driver: None,
            first: Link::none(),
        }
    }
}

/// A cell with its operand slots.
#[derive(Drop)]
pub struct Cell {
    kind: Kind,
    name: Option<Name>,
    slots: SmallVec<Slot, 4>,
    output: Option<NetId>,
}

impl Model for Cell {
    ghost use Rattle.std.specs.Prelude.{◌≤◌, length};
    ghost use Rattle.linked_cells.specs.Views.{CellSlots};

    ghost Value = { CellSlots };

    ghost view = { λ c. record {
      kind = c.kind;
      name = c.name;
      slots = c.slots.items;
      output = c.output;
    } };

    ghost invariant = { λ c. length c.slots.items ≤ 256 };
}

impl Cell {
    ghost use Rattle.std.specs.Prelude.{◌≡◌, ◌<◌, ◌≤◌, length, replicate, slice_get, slice_set, Some, IfOk, IsOk};
    ghost use Rattle.linked_cells.specs.Cells.{blank_slot};

    /// A cell whose operands are the constant 0.
    pub fn blank(
        alloc: Global,
        kind: Kind,
        name: Option<Name>,
        count: usize,
        output: Option<NetId>,
    ) -> Result<Cell, AllocError>
        requires { count ≤ 256 }
        ensures cell { IfOk result (λ cell. cell
            ≡ record { kind = kind; name = name; slots = replicate count blank_slot; output = output }) }
        ensures few { count ≤ 4 → IsOk result }
    {
        let mut slots = SmallVec::new(alloc);
        slots.reserve(count)?;
        for _i in 0..count {
            slots.push_reserved(Slot::default());
        }
        Ok(Cell {
            kind,
            name,
            slots,
            output,
        })
    }

    /// What the cell does.
    pub fn kind(&self) -> Kind
        ensures { result ≡ self.now.kind }
    {
        self.kind
    }

    /// The name of the cell, if it has one.
    pub fn name(&self) -> Option<Name>
        ensures { result ≡ self.now.name }
    {
        self.name
    }

    /// How many operands the cell has.
    pub fn count(&self) -> u32
        ensures count { result ≡ length self.now.slots }
        ensures few { result ≤ 256 }
    {
        self.slots.len() as u32
    }

    /// The net that the cell drives, if it is connected.
    pub fn output(&self) -> Option<NetId>
        ensures { result ≡ self.now.output }
    {
        self.output
    }

    /// Makes the cell drive this net.
    pub fn set_output(&mut self, output: Option<NetId>)
        ensures { self.new ≡ record self.old { output = output } }
    {
        self.output = output;
    }

    /// The slot at a place.
    pub fn slot(&self, place: u32) -> Slot
        requires { place < length self.now.slots }
        ensures { slice_get self.now.slots place ≡ Some result }
    {
        self.slots.as_slice()[place as usize]
    }

    /// Writes the slot at a place.
    pub fn write(&mut self, place: u32, slot: Slot)
        requires { place < length self.old.slots }
        ensures { self.new ≡ record self.old { slots = slice_set self.old.slots place slot } }
    {
        self.slots.as_mut_slice()[place as usize] = slot;
    }
}

/// The links visit each slot on a net once and no other.
pub fn links_visit_once()
    ensures { LinksVisitOnce }
{}
