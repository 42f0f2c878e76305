ghost use Rattle.std.specs.Prelude.{◌≡◌, ℕ, ◌-◌, ◌<◌, ◌≤◌, ◌↔◌, length, replicate, option_map, Some, IfOk, IfSome, OnErr, IsSome, IsTrue, MatchOption, ⊤, is_ok, if◌then◌else◌};
ghost use Rattle.linked_cells.specs.cell_library.Gates.{Takes, flop_of};
ghost use Rattle.linked_cells.specs.netlist_model.Lists.{CellView, cell_at, cell_count};
ghost use Rattle.linked_cells.specs.netlist_model.Below.{AreFeedsBelow, IsFeedBelow, IsNetBelow};
ghost use Rattle.linked_cells.specs.Cells.{blank_slot, cell_view};
ghost use Rattle.netlist_arena.specs.Arena.{HasItsOperands, IsPlaceBelow};
ghost use Rattle.netlist_arena.specs.Adds.{CanDrive, AddsCell};
ghost use Rattle.netlist_arena.specs.Looks.{IsLive, feed_at};

use crate::Netlist;
use crate::links::{add_loose, note_driver};
use linked_cells::Cell;
use linked_cells::lower_cell_library::{FlopKind, Kind, flop_of};
use linked_cells::lower_netlist_model::{CellId, Feed, Name, NetId};
use linked_cells::lower_texts::OutOfMemory;

impl Netlist {
    /// Adds a cell of at most four operands, which takes one spare cell.
    pub fn add_cell(
        &mut self,
        kind: Kind,
        name: Option<Name>,
        feeds: &[Feed],
        output: Option<NetId>,
    ) -> CellId
        requires room { 0 < self.old.spare.cells }
        requires few { length feeds.now ≤ 4 }
        requires count { Takes self.old.lists.library kind (length feeds.now) }
        requires feeds { AreFeedsBelow (length self.old.lists.nets) feeds.now }
        requires output { CanDrive self.old.lists output }
        ensures added { AddsCell self.old.lists self.new.lists result.0
            (record { kind = kind; name = name; feeds = feeds.now; output = output }) }
        ensures spare { self.new.spare ≡ record self.old.spare { cells = self.old.spare.cells - 1 } }
    {
        match Cell::blank(self.alloc, kind, name, feeds.len(), output) {
            Ok(cell) => self.place_cell(cell, feeds, output),
            Err(_) => unreachable!(),
        }
    }

    /// Adds a cell of any count of operands up to 256, which takes one spare cell and, past four operands, memory.
    /// Without memory nothing changes.
    pub fn add_wide_cell(
        &mut self,
        kind: Kind,
        name: Option<Name>,
        feeds: &[Feed],
        output: Option<NetId>,
    ) -> Result<CellId, OutOfMemory>
        requires room { 0 < self.old.spare.cells }
        requires few { length feeds.now ≤ 256 }
        requires count { Takes self.old.lists.library kind (length feeds.now) }
        requires feeds { AreFeedsBelow (length self.old.lists.nets) feeds.now }
        requires output { CanDrive self.old.lists output }
        ensures added { IfOk result (λ id. AddsCell self.old.lists self.new.lists id.0
            (record { kind = kind; name = name; feeds = feeds.now; output = output })) }
        ensures err { OnErr result (self.new.lists ≡ self.old.lists) }
        ensures walks { OnErr result (self.new.walks ≡ self.old.walks) }
        ensures spare { self.new.spare ≡ (if is_ok result then record self.old.spare
            { cells = self.old.spare.cells - 1 }
            else self.old.spare) }
    {
        let cell = Cell::blank(self.alloc, kind, name, feeds.len(), output)?;
        Ok(self.place_cell(cell, feeds, output))
    }

    // Puts a cell whose operands are the constant 0 in a place of its own, and gives it these operands.
    fn place_cell(&mut self, cell: Cell, feeds: &[Feed], output: Option<NetId>) -> CellId
        requires room { 0 < self.old.spare.cells }
        requires blank { cell.slots ≡ replicate (length feeds.now) blank_slot }
        requires few { length feeds.now ≤ 256 }
        requires count { Takes self.old.lists.library cell.kind (length feeds.now) }
        requires feeds { AreFeedsBelow (length self.old.lists.nets) feeds.now }
        requires is { cell.output ≡ output }
        requires output { CanDrive self.old.lists output }
        ensures added { AddsCell self.old.lists self.new.lists result.0
            (record { kind = cell.kind; name = cell.name; feeds = feeds.now; output = output }) }
        ensures spare { self.new.spare ≡ record self.old.spare { cells = self.old.spare.cells - 1 } }
    {
        let id = add_loose(&mut self.cells, &mut self.nets, cell, feeds);
        note_driver(&mut self.nets, output, id);
        self.spare_cells -= 1;
        id
    }

    // The live cell with this number.
    pub(crate) fn cell(&self, id: CellId) -> &Cell
        requires { IsLive self.now.lists id.0 }
        ensures found { cell_at self.now.lists id.0 ≡ Some (cell_view result.now) }
        ensures below { IsPlaceBelow (length self.now.lists.nets) (Some (cell_view result.now)) }
        ensures count { HasItsOperands self.now.lists.library (Some (cell_view result.now)) }
    {
        match self.cells.get(id.0) {
            Some(cell) => cell,
            None => unreachable!(),
        }
    }

    /// How many cells there are; a cell that was removed doesn't count.
    pub fn cell_count(&self) -> u32
        ensures { result ≡ cell_count self.now.lists }
    {
        self.cells.len()
    }

    /// A number that is greater than that of each cell. It grows only where a cell is added.
    pub fn cell_bound(&self) -> u32
        ensures { (number : ℕ) → IsLive self.now.lists number → number < result }
    {
        self.cells.bound()
    }

    /// Whether a cell has this number.
    pub fn is_live(&self, cell: CellId) -> bool
        ensures { IsTrue result ↔ IsLive self.now.lists cell.0 }
    {
        match self.cells.get(cell.0) {
            Some(_) => true,
            None => false,
        }
    }

    /// The kind of a cell.
    pub fn kind(&self, cell: CellId) -> Kind
        requires { IsLive self.now.lists cell.0 }
        ensures { option_map (λ (found : CellView). found.kind) (cell_at self.now.lists cell.0)
            ≡ Some result }
    {
        self.cell(cell).kind()
    }

    /// The flip-flop that a cell is; none for a gate.
    pub fn flop(&self, cell: CellId) -> Option<FlopKind>
        requires { IsLive self.now.lists cell.0 }
        ensures { option_map (λ (found : CellView). flop_of self.now.lists.library found.kind)
            (cell_at self.now.lists cell.0) ≡ Some result }
    {
        flop_of(self.library(), self.cell(cell).kind())
    }

    /// The name of a cell, if it has one.
    pub fn cell_name(&self, cell: CellId) -> Option<Name>
        requires { IsLive self.now.lists cell.0 }
        ensures { option_map (λ (found : CellView). found.name) (cell_at self.now.lists cell.0)
            ≡ Some result }
    {
        self.cell(cell).name()
    }

    /// The net that a cell drives, if it is connected.
    pub fn output(&self, cell: CellId) -> Option<NetId>
        requires { IsLive self.now.lists cell.0 }
        ensures value { option_map (λ (found : CellView). found.output) (cell_at self.now.lists cell.0)
            ≡ Some result }
        ensures below { MatchOption result ⊤ (IsNetBelow (length self.now.lists.nets)) }
    {
        self.cell(cell).output()
    }

    /// How many operands a cell has: one of the counts that its kind takes.
    pub fn feed_count(&self, cell: CellId) -> u32
        requires { IsLive self.now.lists cell.0 }
        ensures few { result ≤ 256 }
        ensures takes { IfSome (cell_at self.now.lists cell.0) (λ found. Takes self.now.lists.library found.kind result) }
        ensures count { option_map (λ (found : CellView). length found.feeds)
            (cell_at self.now.lists cell.0) ≡ Some result }
    {
        self.cell(cell).count()
    }

    /// An operand of a cell, by its place.
    pub fn feed(&self, cell: CellId, place: u32) -> Feed
        requires { IsSome (feed_at self.now.lists cell.0 place) }
        ensures value { feed_at self.now.lists cell.0 place ≡ Some result }
        ensures below { IsFeedBelow (length self.now.lists.nets) result }
    {
        let slot = self.cell(cell).slot(place);
        slot.feed
    }
}
