// The tables of a netlist for events.

ghost use Rattle.std.specs.Prelude.{◌≡◌, ◌<◌, ◌*◌, IfOk, length};
ghost use Rattle.netlist_model.specs.Formed.{IsWellFormed};
ghost use Rattle.netlist_model.specs.Orders.{IsCellOrder};
ghost use Rattle.netlist_settling.specs.Values.{AreSides};

use crate::gates::gates_of;
use crate::readers::readers_of;
use crate::rows::rows_of;
use crate::tables::turns_of;
use cell_library::Kind;
use event_parts::counted_cells::{Pair, PairTables};
use netlist_arena::Netlist;
use netlist_model::{CellId, Dir, Feed, NetId};
use std::alloc::Global;
use std::marker::Model;
use texts::OutOfMemory;

// A netlist with more cells is refused: each has three turns, and a turn is a number of 32 bits.
const MOST_CELLS: usize = 1 << 30;

/// A cell in its place, with its operands from one place of a list on.
#[derive(Clone, Copy, PartialEq, Eq)]
pub struct Gate {
    pub cell: CellId,
    pub kind: Kind,
    pub first: usize,
    pub count: u32,
    pub output: Option<NetId>,
}

/// What an event needs of a gate of two nets whose net is no pin that is driven from outside; in `pair` None of any
/// other cell. (In few bytes, since an event looks at gates all over the netlist.)
#[derive(Clone, Copy, PartialEq, Eq)]
pub struct Row {
    pub pair: Option<Pair>,
    pub a: NetId,
    pub b: NetId,
    pub net: NetId,
}

/// What events need of a netlist.
#[derive(Drop)]
pub struct Circuit<'a> {
    pub(crate) netlist: &'a Netlist,
    // Of each net its direction, and the turn after that of its driver.
    pub(crate) sides: Vec<Option<Dir>>,
    pub(crate) firsts: Vec<u32>,
    // The cells in their order, their operands, and what is kept of each that is a pair.
    pub(crate) gates: Vec<Gate>,
    pub(crate) feeds: Vec<Feed>,
    pub(crate) rows: Vec<Row>,
    // What pairs give.
    pub(crate) tables: PairTables,
    // The turn of each cell, by its number.
    pub(crate) turns: Vec<u32>,
    // The turns of what waits on net n are those from starts[n] to starts[n + 1].
    pub(crate) starts: Vec<usize>,
    pub(crate) readers: Vec<u32>,
}

impl<'a> Model for Circuit<'a> {
    ghost use Rattle.event_turns.specs.Circuits.{CircuitView, IsCircuit};

    ghost Value = { CircuitView };

    ghost view = { λ c. record {
      lists = c.netlist.now.lists;
      sides = c.sides.items;
      firsts = c.firsts.items;
      gates = c.gates.items;
      feeds = c.feeds.items;
      rows = c.rows.items;
      tables = c.tables;
      turns = c.turns.items;
      starts = c.starts.items;
      readers = c.readers.items;
    } };

    ghost invariant = { λ c. IsCircuit (record {
      lists = c.netlist.now.lists;
      sides = c.sides.items;
      firsts = c.firsts.items;
      gates = c.gates.items;
      feeds = c.feeds.items;
      rows = c.rows.items;
      tables = c.tables;
      turns = c.turns.items;
      starts = c.starts.items;
      readers = c.readers.items;
    }) };
}

impl<'a> Circuit<'a> {
    ghost use Rattle.event_turns.specs.Circuits.{IsCircuit};

    /// The tables of a netlist, in time linear in its nets, cells and operands.
    pub fn new(
        alloc: Global,
        netlist: &'a Netlist,
        order: &[CellId],
        sides: Vec<Option<Dir>>,
    ) -> Result<Circuit<'a>, OutOfMemory>
        requires formed { IsWellFormed netlist.now.lists }
        requires order { IsCellOrder netlist.now.lists order.now }
        requires sides { AreSides netlist.now.lists sides.items }
        ensures { IfOk result (λ circuit. circuit.lists ≡ netlist.now.lists) }
    {
        netlist.is_laid_out();
        if order.len() >= MOST_CELLS {
            return Err(OutOfMemory);
        }
        let placed = gates_of(alloc, netlist, order)?;
        let turned = turns_of(
            alloc,
            netlist,
            order,
            placed.gates.as_slice(),
            placed.feeds.as_slice(),
        )?;
        let rows = rows_of(
            alloc,
            netlist.library(),
            placed.gates.as_slice(),
            placed.feeds.as_slice(),
            sides.as_slice(),
        )?;
        let tables = PairTables::new(alloc, netlist.library())?;
        let waiting = readers_of(alloc, netlist, order, turned.turns.as_slice())?;
        Ok(Circuit {
            netlist,
            sides,
            firsts: turned.firsts,
            gates: placed.gates,
            feeds: placed.feeds,
            rows,
            tables,
            turns: turned.turns,
            starts: waiting.starts,
            readers: waiting.readers,
        })
    }

    /// The directions of all nets.
    pub fn sides(&self) -> &[Option<Dir>]
        ensures { AreSides self.now.lists result.now }
    {
        self.sides.as_slice()
    }

    /// No turn is this number or a greater one.
    pub fn turn_bound(&self) -> u32
        ensures { result ≡ 3 * length self.now.gates }
    {
        3 * self.gates.len() as u32
    }

    /// Does nothing: the tables are those of the netlist.
    pub(crate) fn are_tables(&self)
        ensures { IsCircuit self.now }
    {
        // Looked at so that the proof has its facts.
        let _count = self.gates.len();
    }
}
