ghost use Rattle.std.specs.Prelude.{◌≡◌, ◌≤◌, [], length, OnOk, IfSome};
ghost use Rattle.cell_library.specs.Sound.{IsLibrary};
ghost use Rattle.netlist_model.specs.Lists.{cell_count};
ghost use Rattle.netlist_model.specs.Contained.{IsDense};
ghost use Rattle.link_rules.specs.link_model.Cells.{bytes_of};
ghost use Rattle.link_rules.specs.link_model.Fits.{FitCells};
ghost use Rattle.link_rules.specs.link_model.Denoted.{AreCells, IsName};
ghost use Rattle.link_arena.specs.Named.{IsEntered, AreCellsEntered, DriveApart};

use crate::name_table::NameTable;
use crate::names::original;
use link_rules::lower_link_model::ItemCell;
use netlist_arena::Netlist;
use netlist_model::Name;
use texts::OutOfMemory;

/// Adds the cells, in order, to a netlist that has none.
pub fn add_cells(
    netlist: &mut Netlist,
    names: &NameTable,
    cells: &[ItemCell],
) -> Result<(), OutOfMemory>
    requires room { length cells.now ≤ netlist.old.spare.cells }
    requires none { netlist.old.lists.cells ≡ [] }
    requires names { AreCellsEntered names.now cells.now }
    requires library { IsLibrary netlist.old.lists.library }
    requires fits { FitCells netlist.old.lists.library (length netlist.old.lists.nets) cells.now }
    requires apart { DriveApart netlist.old.lists cells.now }
    ensures cells { OnOk result (AreCells names.now netlist.new.lists cells.now) }
    ensures dense { OnOk result (IsDense netlist.new.lists) }
    ensures library { OnOk result (netlist.new.lists.library ≡ netlist.old.lists.library) }
    ensures ports { OnOk result (netlist.new.lists.ports ≡ netlist.old.lists.ports) }
    ensures nets { OnOk result (netlist.new.lists.nets ≡ netlist.old.lists.nets) }
{
    let mut hint = 0;
    for cell in cells {
        let name = cell_name(names, cell.name(), &mut hint);
        let _id = netlist.add_wide_cell(cell.kind(), name, cell.feeds(), cell.output())?;
    }
    Ok(())
}

// The name of the netlist for a cell's, if it has one, which is looked for near the hint.
fn cell_name(names: &NameTable, name: Option<&[u8]>, hint: &mut u32) -> Option<Name>
    requires { IfSome (bytes_of name) (IsEntered names.now) }
    ensures { IsName names.now result (bytes_of name.entry) }
{
    match name {
        Some(name) => Some(original(names, name, hint)),
        None => None,
    }
}
