ghost use Rattle.std.specs.Prelude.{◌≡◌, ◌++◌, ◌∷◌, [], IfOk, OnErr, OnOk, option_map};
ghost use Rattle.link_model.specs.Faults.{bit_name};
ghost use Rattle.link_model.specs.Cells.{bytes_of};

use crate::fault::BitName;
use netlist_model::lower_cell_library::Kind;
use netlist_model::{Dir, Feed, NetId};
use smallvec::SmallVec;
use std::alloc::Global;
use std::marker::Model;
use texts::{OutOfMemory, Text};

/// A net of a module: the name of its declaration, its index there, and the direction of its port. The index is none
/// for a scalar, the direction for a wire.
#[derive(Drop)]
pub struct NetBit<'a> {
    name: &'a [u8],
    index: Option<u32>,
    dir: Option<Dir>,
}

impl<'a> Model for NetBit<'a> {
    ghost use Rattle.link_model.specs.Nets.{NamedNet};

    ghost Value = { NamedNet };

    ghost view = { λ n. record { name = n.name.now; index = n.index; dir = n.dir } };
}

impl<'a> NetBit<'a> {
    /// A net that is named so: a scalar has no index, and a wire no direction.
    pub fn new(name: &'a [u8], index: Option<u32>, dir: Option<Dir>) -> NetBit<'a>
        ensures { result ≡ record { name = name.now; index = index; dir = dir } }
    {
        NetBit { name, index, dir }
    }

    /// The name of the whole net, without the index.
    pub fn name(&self) -> &'a [u8]
        ensures { result.now ≡ self.now.name }
    {
        self.name
    }

    /// The index of a vector's bit.
    pub fn index(&self) -> Option<u32>
        ensures { result ≡ self.now.index }
    {
        self.index
    }

    /// The direction of the port that the net is.
    pub fn dir(&self) -> Option<Dir>
        ensures { result ≡ self.now.dir }
    {
        self.dir
    }

    /// The net as a fault names it.
    pub fn bit_name(&self, alloc: Global) -> Result<BitName, OutOfMemory>
        ensures { IfOk result (λ bit. bit ≡ bit_name self.now) }
    {
        Ok(BitName {
            name: Text::from_bytes(alloc, self.name)?,
            index: self.index,
        })
    }
}

/// The cell of an item: its kind, its name, its operands in the order of the kind, and the net that it drives. An
/// `assign`, and a gate that has none in the text, is without name; an output port may be unconnected.
#[derive(Drop)]
pub struct ItemCell<'a> {
    kind: Kind,
    keeps: bool,
    name: Option<&'a [u8]>,
    feeds: SmallVec<Feed, 4>,
    output: Option<NetId>,
}

impl<'a> Model for ItemCell<'a> {
    ghost use Rattle.link_model.specs.Cells.{NamedCell, bytes_of};

    ghost Value = { NamedCell };

    ghost view = { λ c. record {
      kind = c.kind;
      keeps = c.keeps;
      name = bytes_of c.name;
      feeds = c.feeds.items;
      output = c.output;
    } };
}

impl<'a> ItemCell<'a> {
    /// A cell of these parts.
    pub fn new(
        kind: Kind,
        keeps: bool,
        name: Option<&'a [u8]>,
        feeds: SmallVec<Feed, 4>,
        output: Option<NetId>,
    ) -> ItemCell<'a>
        ensures { result ≡ record {
          kind = kind;
          keeps = keeps;
          name = bytes_of name.entry;
          feeds = feeds.items;
          output = output;
        } }
    {
        ItemCell {
            kind,
            keeps,
            name,
            feeds,
            output,
        }
    }

    /// What the cell is.
    pub fn kind(&self) -> Kind
        ensures { result ≡ self.now.kind }
    {
        self.kind
    }

    /// Whether the cell keeps a value.
    pub fn keeps(&self) -> bool
        ensures { result ≡ self.now.keeps }
    {
        self.keeps
    }

    /// The instance's name, where the text gives one.
    pub fn name(&self) -> Option<&'a [u8]>
        ensures { bytes_of result ≡ self.now.name }
    {
        self.name
    }

    /// What the cell reads, in the order of its kind's inputs.
    pub fn feeds(&self) -> &[Feed]
        ensures { result.now ≡ self.now.feeds }
    {
        self.feeds.as_slice()
    }

    /// The net that the cell drives.
    pub fn output(&self) -> Option<NetId>
        ensures { result ≡ self.now.output }
    {
        self.output
    }
}
