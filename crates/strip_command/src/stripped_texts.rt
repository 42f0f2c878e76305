// From texts that were read to texts to be written.
ghost use Rattle.std.specs.Prelude.{ℕ, List, IfErr, IfOk, OnOk};
ghost use Rattle.verilog_tree.specs.IsTree.{IsTree};
ghost use Rattle.verilog_texts.specs.TextOutcome.{IsReadAs};
ghost use Rattle.link_model.specs.Late.{IsLinkable};
ghost use Rattle.bsdl_values.specs.TextOutcome.{IsDeviceReadAs};
ghost use Rattle.strip_command.specs.Faults.{StandsInBoth, StandsInInputs, StandsInTree};
ghost use Rattle.strip_command.specs.Tasks.{IsStrippedTexts};

use crate::written_answer::write_answer;
use bsdl_device::Device;
use bsdl_values::read_device;
use cell_library::Library;
use command_edges::Made;
use command_faults::Fault;
use netlist_link::link;
use scan_strip::{StripFault, strip_tree};
use std::alloc::Global;
use texts::{OutOfMemory, Text};
use verilog_texts::read_module;
use verilog_tree::Module;

// Whether a module can be linked with this library; its netlist is let go.
#[tactic(auto, using(crate::proofs::Made::can_link))]
fn can_be_linked<'a>(alloc: Global, tree: &Module, library: Library) -> Result<(), Fault<'a>>
    requires { IsTree tree.now }
    ensures linkable { OnOk result (IsLinkable library tree.now) }
    ensures fault { IfErr result (StandsInTree library tree.now) }
{
    match link(alloc, tree, library) {
        Ok(_linked) => Ok(()),
        Err(fault) => Err(Fault::Link(fault)),
    }
}

// The texts of the netlist and of the plan that a module with test logic and a device were made from, with the cells
// of this library.
fn strip_both<'a>(
    alloc: Global,
    tree: &Module,
    library: &Library,
    device: &Device,
) -> Result<Made, Fault<'a>>
    requires { IsTree tree.now }
    ensures made { (net text : List ℕ)
        → IsReadAs net tree.now
        → IsLinkable library.now tree.now
        → IsDeviceReadAs text device.now
        → IfOk result (λ made. IsStrippedTexts library.now net text made.outputs made.put made.status) }
    ensures fault { IfErr result (StandsInBoth library.now tree.now device.now) }
{
    match strip_tree(alloc, tree, library, device) {
        Ok(answer) => Ok(write_answer(alloc, &answer)?),
        Err(StripFault::NotInserted) => Err(Fault::NotInserted),
        Err(StripFault::OutOfMemory) => Err(Fault::OutOfMemory),
    }
}

// Those that a module that can be linked and the device of a text were made from.
fn strip_linkable<'a>(
    alloc: Global,
    tree: &Module,
    library: &Library,
    bsdl: Text,
) -> Result<Made, Fault<'a>>
    requires tree { IsTree tree.now }
    requires linkable { IsLinkable library.now tree.now }
    ensures made { (net : List ℕ)
        → IsReadAs net tree.now
        → IfOk result (λ made. IsStrippedTexts library.now net bsdl made.outputs made.put made.status) }
    ensures fault { (net : List ℕ)
        → IsReadAs net tree.now
        → IfErr result (StandsInInputs library.now net bsdl) }
{
    let device = read_device(alloc, bsdl)?;
    strip_both(alloc, tree, library, &device)
}

// Those that a module and the device of a text were made from.
fn strip_module<'a>(
    alloc: Global,
    tree: &Module,
    library: &Library,
    bsdl: Text,
) -> Result<Made, Fault<'a>>
    requires { IsTree tree.now }
    ensures made { (net : List ℕ)
        → IsReadAs net tree.now
        → IfOk result (λ made. IsStrippedTexts library.now net bsdl made.outputs made.put made.status) }
    ensures fault { (net : List ℕ)
        → IsReadAs net tree.now
        → IfErr result (StandsInInputs library.now net bsdl) }
{
    can_be_linked(alloc, tree, library.copy(alloc)?)?;
    strip_linkable(alloc, tree, library, bsdl)
}

/// The netlist and the plan that the netlist of one text and the device of another were made from, with this library.
pub fn stripped<'a>(
    alloc: Global,
    net: Text,
    bsdl: Text,
    library: Library,
) -> Result<Made, Fault<'a>>
    ensures made { IfOk result (λ made. IsStrippedTexts library net bsdl made.outputs made.put made.status) }
    ensures fault { IfErr result (StandsInInputs library net bsdl) }
{
    let tree = read_module(alloc, net)?;
    strip_module(alloc, &tree, &library, bsdl)
}
