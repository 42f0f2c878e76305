// Which nets are driven by cells.
ghost use Rattle.std.specs.Prelude.{◌+◌, IfOk};
ghost use Rattle.status_fitting.specs.Tables.{FlagsAllDriven, FlagsDriven};

use crate::flags::no_flags;
use netlist_arena::Netlist;
use netlist_model::CellId;
use std::alloc::Global;
use texts::OutOfMemory;

// Notes the net that a cell drives.
fn note_driven(driven: &mut [bool], netlist: &Netlist, cell: CellId)
    requires { FlagsDriven netlist.now.lists cell.0 driven.old }
    ensures { FlagsDriven netlist.now.lists (cell.0 + 1) driven.new }
{
    netlist.is_laid_out();
    if !netlist.is_live(cell) {
        return;
    }
    match netlist.output(cell) {
        Some(net) => driven[net.0 as usize] = true,
        None => {}
    }
}

/// Of each net, whether a cell drives it.
pub fn driven_nets(alloc: Global, netlist: &Netlist) -> Result<Vec<bool>, OutOfMemory>
    ensures { IfOk result (λ driven. FlagsAllDriven netlist.now.lists driven.items) }
{
    let mut driven = no_flags(alloc, netlist.net_count() as usize)?;
    for number in 0..netlist.cell_bound() {
        note_driven(driven.as_mut_slice(), netlist, CellId(number));
    }
    Ok(driven)
}
