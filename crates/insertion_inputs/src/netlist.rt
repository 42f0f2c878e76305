// The netlist of a text.
ghost use Rattle.std.specs.Prelude.{IfErr, IfOk};
ghost use Rattle.insertion_inputs.specs.Inputs.{IsNetlistOf};
ghost use Rattle.insertion_inputs.specs.Faults.{StandsInNetlist};

use crate::fault::InsertFault;
use cell_library::Library;
use netlist_link::{Linked, link};
use std::alloc::Global;
use texts::Text;
use verilog_texts::read_module;

/// The netlist of the module that a text spells, with this library.
pub fn link_text(alloc: Global, net: Text, library: Library) -> Result<Linked, InsertFault>
    ensures linked { IfOk result (IsNetlistOf library net) }
    ensures fault { IfErr result (StandsInNetlist library net) }
{
    // Asked so that the proof knows that it is a library.
    let _count = library.count();
    let tree = read_module(alloc, net)?;
    Ok(link(alloc, &tree, library)?)
}
