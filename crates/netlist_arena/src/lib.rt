// An arena that holds a netlist: adding ports, nets and cells, moving what is connected, and looking.
// Contracts cite specs/Arena.antt, specs/Adds.antt and specs/Moves.antt: each call is its substitution on the lists.
// IEEE Std 1364-2001: module instances and ports, gate level modelling; the numbering and the room are own.
//
// - `add_net`, `add_port_bit`, `add_port`: the lists with one element more at the end; the answer is the count
//   before.
// - `add_cell`, `add_wide_cell`: one cell more, under a number that no live cell had, and that is the count of
//   cells where there were no gaps; every other cell stays.
// - `connect`, `move_readers`, `move_driver`: exactly that substitution on the lists, and all else stays.
//   `remove_cell`: the cell is gone, its output undriven, the others keep their numbers.
// - Each adding call takes exactly its spare numbers, no other call but `reserve` changes them, and calls without
//   a Result can't refuse. A refusal leaves lists, spare numbers and walks as they were.
// - `reserve` answers TooMany exactly where present plus asked passes 262,144 cells, 524,288 nets or 4,096 port
//   bits, the first in this order; where it is Ok the spare numbers are at least what was asked.
// - `library` gives the cells that the netlist's listed kinds are, which no call changes; `flop` the flip-flop that a
//   cell is, by its kind and the library.
// - `driver` says what drives a net. `first_reader` and `next_reader` visit each operand on the net once and no
//   other. The other looking calls answer what the lists hold.
// - `copy`, where Ok, has the same library, lists and spare numbers. A walk that was begun goes on after a
//   `reserve`, and in a copy.
// - At all times each port has a net for each bit, each named net is there, and no net has two drivers
//   (`is_laid_out`). A net names the cell that drives it, and the links from its first reader visit exactly the
//   operands on it.
// By the contract of its calls.
#![tactic(auto)]

ghost use Rattle.std.specs.Prelude.{◌≡◌, [], length};

mod cells;
mod copies;
mod drivers;
mod links;
pub mod lower_cell_library;
pub mod lower_netlist_model;
mod moves;
mod nets;
mod ports;
mod readers;
mod room;

use linked_cells::lower_cell_library::Library;
use linked_cells::lower_netlist_model::{Dir, Name, NetId, Range};
use linked_cells::places::Places;
use linked_cells::{Cell, Net};
pub use room::ReserveFault;
use std::alloc::Global;
use std::marker::Model;

// A port has at least one bit: the net of the leftmost, and then those of the others.
#[derive(Drop)]
struct Port {
    name: Name,
    dir: Dir,
    range: Option<Range>,
    first: NetId,
    rest: Vec<NetId>,
}

impl Model for Port {
    ghost use Rattle.std.specs.Prelude.{◌∷◌};
    ghost use Rattle.linked_cells.specs.netlist_model.Lists.{PortView};

    ghost Value = { PortView };

    ghost view = { λ p. record {
      name = p.name;
      dir = p.dir;
      range = p.range;
      nets = p.first ∷ p.rest.items;
    } };
}

/// A netlist, with room for what will be added. The number of a net or a port is its place in its list. A cell
/// keeps its number until it is removed.
#[derive(Drop)]
pub struct Netlist {
    library: Library,
    ports: Vec<Port>,
    // How many bits the ports have.
    pins: u32,
    spare_pins: u32,
    nets: Places<Net>,
    spare_nets: u32,
    cells: Places<Cell>,
    spare_cells: u32,
    alloc: Global,
}

impl Model for Netlist {
    ghost use Rattle.std.specs.Prelude.{◌≡◌, ℕ, ◌+◌, ◌<◌, ◌≤◌, ◌^◌, length, vec_len, vec_capacity, All, IsSome};
    ghost use Rattle.linked_cells.specs.Links.{Threaded};
    ghost use Rattle.linked_cells.specs.PlacesLaws.{place_at};
    ghost use Rattle.linked_cells.specs.Cells.{slot_at, first_at, driver_at, cells_of, nets_of};
    ghost use Rattle.linked_cells.specs.Walks.{walks_of};
    ghost use Rattle.netlist_arena.specs.Arena.{ArenaView, HasRoom, HasItsOperands, IsPlaceBelow, IsPortBelow, bit_count};
    ghost use Rattle.netlist_arena.specs.Drivers.{AreDrivers};

    ghost Value = { ArenaView };

    ghost view = { λ n. record {
      lists = record
          { library = n.library; ports = n.ports.items; nets = nets_of n.nets.items; cells = cells_of n.cells.items };
      spare = record { cells = n.spare_cells; nets = n.spare_nets; port_bits = n.spare_pins };
      walks = walks_of n.cells.items n.nets.items;
    } };

    ghost invariant = { λ n. record {
      port_room : HasRoom (vec_len n.ports) n.spare_pins (vec_capacity n.ports);
      pin_room : n.pins + n.spare_pins < 2 ^ 32;
      net_room : n.spare_nets ≤ n.nets.spare;
      cell_room : n.spare_cells ≤ n.cells.spare;
      pins_are : n.pins ≡ bit_count n.ports.items;
      nets_there : (k : ℕ) → k < length n.nets.items → IsSome (place_at n.nets.items k);
      ports_below : All (IsPortBelow (length (nets_of n.nets.items))) n.ports.items;
      cells_below : All (IsPlaceBelow (length (nets_of n.nets.items))) (cells_of n.cells.items);
      counts : All (HasItsOperands n.library) (cells_of n.cells.items);
      threaded : Threaded (slot_at n.cells.items) (first_at n.nets.items);
      drivers : AreDrivers (driver_at n.nets.items) (cells_of n.cells.items);
    } };
}

impl Netlist {
    /// An empty netlist with this library. It takes no memory and has no room.
    pub fn new(alloc: Global, library: Library) -> Netlist
        ensures lists { result.lists ≡ record { library = library; ports = []; nets = []; cells = [] } }
        ensures spare { result.spare ≡ record { cells = 0; nets = 0; port_bits = 0 } }
    {
        Netlist {
            library,
            ports: Vec::new(alloc),
            pins: 0,
            spare_pins: 0,
            nets: Places::new(alloc),
            spare_nets: 0,
            cells: Places::new(alloc),
            spare_cells: 0,
            alloc,
        }
    }

    /// The library of its listed cells.
    pub fn library(&self) -> &Library
        ensures { result.now ≡ self.now.lists.library }
    {
        &self.library
    }
}
