// The netlist of a module in an arena, with a table of its names.
// Contracts cite `denoted`, `IsNamed` and `names_of` of the link model: the netlist is the one that the module denotes.
// IEEE Std 1364-2001: modules and ports, data types, gate-level modelling.
//
// - `build`, for a module whose text and drivers have no fault, and for its nets and cells, answers the netlist
//   that the module denotes: ports, nets and cells with the right names, indexes, ranges, directions, operands and
//   outputs; it holds the library that was given.
// - The live cells have the numbers from 0 on without gaps.
// - The table has the names of ports, wires and items, in the order of the text.
// - `name_table`: names as bytes, each once, under numbers.
// By the contract of `build`.
#![tactic(auto)]

ghost use Rattle.std.specs.Prelude.{◌≡◌, IfOk, None, length};
ghost use Rattle.cell_library.specs.Sound.{IsLibrary};
ghost use Rattle.verilog_tree.specs.IsTree.{IsTree};
ghost use Rattle.netlist_model.specs.Contained.{IsDense};
ghost use Rattle.link_rules.specs.link_model.Nets.{declared_nets, nets_in};
ghost use Rattle.link_rules.specs.link_model.Fits.{FitCells};
ghost use Rattle.link_rules.specs.link_model.Faults.{text_fault, driver_fault, cells_in, names_of};
ghost use Rattle.link_rules.specs.link_model.Denoted.{IsNamed, denoted};

mod cells;
pub mod lower_cell_order;
pub mod lower_link_rules;
pub mod name_table;
mod names;
mod nets;
mod ports;
mod room;

use crate::cells::add_cells;
use crate::name_table::NameTable;
use crate::names::names_of_module;
use crate::nets::add_nets;
use crate::ports::add_ports;
use crate::room::netlist_with_room;
use cell_library::Library;
use link_rules::drivers::nets_have_their_drivers;
use link_rules::lower_link_model::{ItemCell, NetBit};
use netlist_arena::Netlist;
use std::alloc::Global;
use texts::OutOfMemory;
use verilog_tree::Module;

/// A netlist, and the table that has its original names.
#[derive(Drop)]
pub struct Built {
    pub netlist: Netlist,
    pub names: NameTable,
}

/// The netlist that the module denotes, and the table of its names.
pub fn build(
    alloc: Global,
    library: Library,
    tree: &Module,
    nets: &[NetBit],
    cells: &[ItemCell],
) -> Result<Built, OutOfMemory>
    requires tree { IsTree tree.now }
    requires library { IsLibrary library }
    requires clear { text_fault library tree.now ≡ None }
    requires nets { nets.now ≡ nets_in (declared_nets tree.now) }
    requires cells { cells.now ≡ cells_in library tree.now }
    requires fits { FitCells library (length nets.now) cells.now }
    requires driven { driver_fault nets.now cells.now ≡ None }
    ensures named { IfOk result (λ built. IsNamed built.names built.netlist.lists (denoted library tree.now)) }
    ensures library { IfOk result (λ built. built.netlist.lists.library ≡ library) }
    ensures dense { IfOk result (λ built. IsDense built.netlist.lists) }
    ensures names { IfOk result (λ built. built.names ≡ names_of tree.now) }
{
    // A law that the proof uses.
    nets_have_their_drivers();
    let names = names_of_module(alloc, tree)?;
    let mut netlist = netlist_with_room(alloc, library, tree, nets.len(), cells.len())?;
    add_nets(&mut netlist, &names, nets);
    add_ports(alloc, &mut netlist, &names, tree.ports.as_slice())?;
    add_cells(&mut netlist, &names, cells)?;
    Ok(Built { netlist, names })
}
