ghost use Rattle.std.specs.Prelude.{◌≡◌, ◌↔◌, IsTrue};
ghost use Rattle.box_model.specs.Ports.{of_cells};

use cell_library::Library;
use std::alloc::Global;
use texts::{Row, Text};
use verilog_tree::Range;

/// The direction of a port, as the box sees it.
#[derive(Clone, Copy, Debug, Drop, PartialEq, Eq)]
pub enum BoxDir {
    Takes,
    Gives,
}

/// A port of a box; a scalar has no range.
#[derive(Drop)]
pub struct BoxPort {
    pub name: Text,
    pub dir: BoxDir,
    pub range: Option<Range>,
}

/// A cell of which its ports are known alone.
#[derive(Drop)]
pub struct BoxCell {
    pub name: Text,
    pub ports: Row<BoxPort>,
}

/// A library with boxes: its gates and flip-flops, and behind them a listed gate without inputs for each box; the
/// boxes; and the names of the instances whose flip-flop is cut.
#[derive(Drop)]
pub struct BoxLibrary {
    pub cells: Library,
    pub boxes: Row<BoxCell>,
    pub cuts: Row<Text>,
}

impl BoxLibrary {
    /// A library of these cells, without boxes and cuts.
    pub fn of_cells(alloc: Global, cells: Library) -> BoxLibrary
        ensures { result ≡ of_cells cells }
    {
        BoxLibrary {
            cells,
            boxes: Row::new(alloc),
            cuts: Row::new(alloc),
        }
    }

    /// Whether it has neither boxes nor cuts.
    pub fn is_boxless(&self) -> bool
        ensures { IsTrue result ↔ (self.now ≡ of_cells self.now.cells) }
    {
        self.boxes.is_empty() && self.cuts.is_empty()
    }
}
