// Netlists with their boxes open, for the commands that play events on them.
ghost use Rattle.std.specs.Prelude.{◌≡◌, ◌≤◌, length, IfErr, IfOk};
ghost use Rattle.verilog_tree.specs.IsTree.{IsTree};
ghost use Rattle.box_model.specs.Sound.{IsSoundLibrary};
ghost use Rattle.box_links.specs.BoxLinks.{IsBoxLinkOf};
ghost use Rattle.play_command.specs.BoxNetlists.{fault_of, IsFaultBehind};

use box_links::{BoxLinkFault, link_boxes};
use box_model::BoxLibrary;
use command_faults::Fault;
use netlist_link::Linked;
use std::alloc::Global;
use verilog_tree::Module;

// A fault of linking with boxes as one of a command.
fn fault_of<'a>(fault: BoxLinkFault) -> Fault<'a>
    ensures { result ≡ fault_of fault }
{
    match fault {
        BoxLinkFault::Box(fault) => Fault::Boxes(fault),
        BoxLinkFault::Link(fault) => Fault::Link(fault),
        BoxLinkFault::OutOfMemory => Fault::OutOfMemory,
    }
}

/// The netlist of a module with its boxes open, the hidden ports behind its first so many; or the first fault.
pub(crate) fn link_behind<'a>(
    alloc: Global,
    library: &BoxLibrary,
    first: usize,
    tree: Module,
) -> Result<Linked, Fault<'a>>
    requires sound { IsSoundLibrary library.now }
    requires tree { IsTree tree }
    requires first { first ≤ length tree.ports }
    ensures linked { IfOk result (IsBoxLinkOf library.now first tree) }
    ensures fault { IfErr result (IsFaultBehind library.now first tree) }
{
    match link_boxes(alloc, library, first, tree) {
        Ok(made) => Ok(made.linked),
        Err(fault) => Err(fault_of(fault)),
    }
}
