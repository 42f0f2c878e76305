// A module with its boxes open, linked.
ghost use Rattle.std.specs.Prelude.{◌≡◌, ◌+◌, ◌≤◌, IfErr, IfOk, ℕ, length, map};
ghost use Rattle.verilog_tree.specs.IsTree.{IsTree};
ghost use Rattle.box_model.specs.Sound.{IsSoundLibrary};
ghost use Rattle.box_links.specs.BoxFaults.{CanBeOpened, IsBoxLinkFault};
ghost use Rattle.box_links.specs.BoxFaults as faults;
ghost use Rattle.box_links.specs.BoxLinks.{IsBoxLinkOf};
ghost use Rattle.box_links.specs.Steps.{AreNumbers, CanBeLinked, IsFaultOf, IsLinkedAs, IsOpenedAs, IsPlain, IsToldAs, IsToldOf};

use crate::fault::BoxLinkFault;
use crate::three_state::find_three_state;
use box_model::laws::trees_stay_trees;
use box_model::{BoxFault, BoxLibrary};
use box_tables::BoxTable;
use box_trees::{Opened, find_box_fault, find_opened_excess, open};
use link_model::LinkFault;
use netlist_link::{Linked, Straight, link};
use netlist_model::laws::{direction_of_a_bit, found_driver_drives};
use std::alloc::Global;
use texts::{OutOfMemory, Row};
use verilog_tree::Module;

/// The netlist of a module with its boxes open, and how many items the module has.
#[derive(Drop)]
pub struct BoxLinked {
    pub linked: Linked,
    pub items: u32,
}

// The number of the item that an opened item comes from. Each has one.
fn origin_of(origins: &[usize], number: u32) -> u32
    requires { AreNumbers origins.now }
    ensures { result ≡ faults.origin_of origins.now number }
{
    match origins.get(number as usize) {
        Some(origin) => *origin as u32,
        None => number,
    }
}

fn origins_of(alloc: Global, origins: &[usize], numbers: &[u32]) -> Result<Row<u32>, OutOfMemory>
    requires { AreNumbers origins.now }
    ensures { IfOk result (λ found. found ≡ map (faults.origin_of origins.now) numbers.now) }
{
    let mut found = Row::new(alloc);
    for number in numbers {
        found.push(origin_of(origins, *number))?;
    }
    Ok(found)
}

// A fault of the opened module, in the numbers of the module's own items.
fn own_fault(alloc: Global, origins: &[usize], fault: LinkFault) -> BoxLinkFault
    requires { AreNumbers origins.now }
    ensures { IsToldAs origins.now fault result }
{
    match fault {
        LinkFault::OutOfMemory => BoxLinkFault::OutOfMemory,
        LinkFault::Loop { numbers } => match origins_of(alloc, origins, numbers.as_slice()) {
            Ok(numbers) => BoxLinkFault::Link(LinkFault::Loop { numbers }),
            Err(OutOfMemory) => BoxLinkFault::OutOfMemory,
        },
        other => BoxLinkFault::Link(other),
    }
}

// The first fault of the boxes, or of counts.
fn find_fault(alloc: Global, table: &BoxTable<'_>, tree: &Module) -> Result<(), BoxLinkFault>
    ensures clear { IfOk result (λ _. CanBeOpened table.now tree.now) }
    ensures fault { (first : ℕ) → IfErr result (IsBoxLinkFault table.now first tree.now) }
{
    match find_box_fault(alloc, table, tree)? {
        Some(fault) => return Err(BoxLinkFault::Box(fault)),
        None => {}
    }
    match find_opened_excess(alloc, table, tree)? {
        Some(fault) => Err(BoxLinkFault::Link(fault)),
        None => Ok(()),
    }
}

// The module, opened behind its first so many ports; or the first fault of the boxes, or of counts.
fn open_boxes(
    alloc: Global,
    library: &BoxLibrary,
    first: usize,
    tree: Module,
) -> Result<Opened, BoxLinkFault>
    requires { first ≤ length tree.ports }
    ensures clear { IfOk result (λ _. CanBeOpened library.now tree) }
    ensures opened { IfOk result (IsOpenedAs library.now first tree) }
    ensures fault { IfErr result (IsBoxLinkFault library.now first tree) }
{
    let table = BoxTable::of(alloc, library)?;
    find_fault(alloc, &table, &tree)?;
    Ok(open(alloc, &table, first, tree)?)
}

// The netlist of an opened module, which knows its hidden ports.
fn link_opened(alloc: Global, library: &BoxLibrary, opened: &Opened) -> Result<Linked, BoxLinkFault>
    requires { CanBeLinked opened.now }
    ensures linked { IfOk result (IsLinkedAs library.now opened.now) }
    ensures fault { IfErr result (IsFaultOf library.now opened.now) }
{
    let cells = library.cells.copy(alloc)?;
    let mut linked = match link(alloc, &opened.tree, cells) {
        Ok(linked) => linked,
        Err(fault) => return Err(own_fault(alloc, opened.origins.as_slice(), fault)),
    };
    // Asked so that the proof knows that the numbers of ports fit.
    let _ports = linked.netlist().port_count();
    linked.mark_straight(Straight {
        first: opened.first as u32,
        count: opened.hidden as u32,
    });
    Ok(linked)
}

// The netlist, where no three-state gate drives a hidden output.
fn without_three_state(alloc: Global, linked: Linked) -> Result<Linked, BoxLinkFault>
    requires { linked.straight.first + linked.straight.count ≤ length linked.arena.lists.ports }
    ensures linked { IfOk result (IsPlain linked) }
    ensures fault { IfErr result (IsToldOf linked) }
{
    match find_three_state(alloc, &linked)? {
        Some(bit) => Err(BoxLinkFault::Box(BoxFault::BoxTristate { bit })),
        None => Ok(linked),
    }
}

/// The netlist of a module with its boxes open, the hidden ports behind its first so many; or the first fault.
pub fn link_boxes(
    alloc: Global,
    library: &BoxLibrary,
    first: usize,
    tree: Module,
) -> Result<BoxLinked, BoxLinkFault>
    requires sound { IsSoundLibrary library.now }
    requires tree { IsTree tree }
    requires first { first ≤ length tree.ports }
    ensures linked { IfOk result (λ made. IsBoxLinkOf library.now first tree made.linked) }
    ensures items { IfOk result (λ made. made.items ≡ length tree.items) }
    ensures fault { IfErr result (IsBoxLinkFault library.now first tree) }
{
    trees_stay_trees();
    direction_of_a_bit();
    found_driver_drives();
    let items = tree.items.len();
    let opened = open_boxes(alloc, library, first, tree)?;
    let linked = link_opened(alloc, library, &opened)?;
    Ok(BoxLinked {
        linked: without_three_state(alloc, linked)?,
        items: items as u32,
    })
}
