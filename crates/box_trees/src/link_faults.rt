// Links of box instances that can't be opened.
ghost use Rattle.std.specs.Prelude.{◌≡◌, [], ◌||◌, ◌∷◌, ◌++◌, not, false, if◌then◌else◌, IfOk};
ghost use Rattle.std.specs.Option.{option_map_or};
ghost use Rattle.texts.specs.Repeated.{bytes_of, has_name, seen};
ghost use Rattle.link_model.specs.Nets as ranges;
ghost use Rattle.link_model.specs.Lists.{first_in};
ghost use Rattle.box_model.specs.Faults as faults;
ghost use Rattle.box_trees.specs.Fits as fits;
ghost use Rattle.box_trees.specs.Fits.{fits_range};

use box_model::{BoxDir, BoxFault, BoxPort};
use box_tables::{BoxTable, Declarations, PortTable, is_narrow};
use indexmap::IndexSet;
use link_model::width_of;
use std::alloc::Global;
use texts::{OutOfMemory, Text};
use verilog_tree::{Bit, Instance, Item, Link, Module, Operand, Range};

fn is_within(range: Range, index: u32) -> bool
    ensures { result ≡ ranges.is_within range index }
{
    (range.left <= index && index <= range.right) || (range.right <= index && index <= range.left)
}

// The index is one of a vector.
fn holds_index(range: Option<Range>, index: u32) -> bool
    ensures { result ≡ faults.holds_index range index }
{
    match range {
        None => false,
        Some(range) => is_within(range, index),
    }
}

// Whether a net of this range, or its bit with the index, has the bits of a port.
fn fits_port(port: &BoxPort, index: Option<u32>, range: Option<Range>) -> bool
    ensures { result ≡ fits_range port.now index range }
{
    match index {
        None => width_of(range) == width_of(port.range),
        Some(index) => is_narrow(port) && holds_index(range, index),
    }
}

fn fits_bit(nets: &Declarations<'_>, port: &BoxPort, bit: &Bit) -> bool
    ensures { result ≡ faults.fits_operand nets.now port.now (Operand.Bit bit.now) }
{
    match nets.range(bit.net.as_bytes()) {
        None => false,
        Some(range) => fits_port(port, bit.index, range),
    }
}

fn takes(port: &BoxPort) -> bool
    ensures { result ≡ not (faults.gives port.now.dir) }
{
    match port.dir {
        BoxDir::Takes => true,
        BoxDir::Gives => false,
    }
}

// Whether an operand has the bits of a port.
fn fits_operand(nets: &Declarations<'_>, port: &BoxPort, operand: &Operand) -> bool
    ensures { result ≡ faults.fits_operand nets.now port.now operand.now }
{
    match operand {
        Operand::Const(_) => takes(port) && is_narrow(port),
        Operand::Bit(bit) => fits_bit(nets, port, bit),
    }
}

// Whether a link is at fault, where its port is new or was linked before; one of no cut port is at fault at a box.
fn is_bad_link(
    nets: &Declarations<'_>,
    ports: &PortTable<'_>,
    whole: bool,
    is_new: bool,
    link: &Link,
) -> bool
    ensures { result ≡ option_map_or (λ p. not is_new || option_map_or (λ o. not (faults.fits_operand nets.now p o)) link.now.operand false) (faults.port_named ports.now link.now.port) whole }
{
    let Some(port) = ports.find(link.port.as_bytes()) else {
        return whole;
    };
    if !is_new {
        return true;
    }
    match &link.operand {
        None => false,
        Some(operand) => !fits_operand(nets, port, operand),
    }
}

/// Notes a name, and says whether it is new.
pub(crate) fn note<'a>(table: &mut IndexSet<&'a [u8]>, name: &'a [u8]) -> Result<bool, OutOfMemory>
    ensures { IfOk result (λ fresh. (fresh ≡ not (has_name (seen table.old) name.now))
        × (seen table.new ≡ (if fresh then seen table.old ++ name.now ∷ [] else seen table.old))) }
{
    Ok(table.insert(name)?)
}

// The port of the first link at fault.
fn bad_link<'a>(
    alloc: Global,
    nets: &Declarations<'_>,
    ports: &PortTable<'_>,
    whole: bool,
    links: &'a [Link],
) -> Result<Option<&'a [u8]>, OutOfMemory>
    ensures { IfOk result (λ port. bytes_of port ≡ faults.bad_link nets.now ports.now whole [] links.now) }
{
    let mut had = IndexSet::new(alloc);
    for link in links {
        let name = link.port.as_bytes();
        let is_new = note(&mut had, name)?;
        if is_bad_link(nets, ports, whole, is_new, link) {
            return Ok(Some(name));
        }
    }
    Ok(None)
}

// The first link at fault of an instance with these cut ports.
fn instance_fault(
    alloc: Global,
    nets: &Declarations<'_>,
    ports: &PortTable<'_>,
    whole: bool,
    instance: &Instance,
) -> Result<Option<BoxFault>, OutOfMemory>
    ensures { IfOk result (λ fault. fault ≡ fits.instance_fault nets.now ports.now whole instance.now) }
{
    match bad_link(alloc, nets, ports, whole, instance.links.as_slice())? {
        None => Ok(None),
        Some(port) => Ok(Some(BoxFault::BoxLink {
            instance: Text::from_bytes(alloc, instance.name.as_bytes())?,
            port: Text::from_bytes(alloc, port)?,
        })),
    }
}

fn item_fault(
    alloc: Global,
    table: &BoxTable<'_>,
    nets: &Declarations<'_>,
    item: &Item,
) -> Result<Option<BoxFault>, OutOfMemory>
    ensures { IfOk result (λ fault. fault ≡ faults.link_fault table.now nets.now item.now) }
{
    match item {
        Item::Gate(_) | Item::Assign { .. } => Ok(None),
        Item::Instance(instance) => match table.ports_of(instance) {
            None => Ok(None),
            Some(ports) => {
                let whole = table.is_box(instance.cell.as_bytes());
                instance_fault(alloc, nets, ports, whole, instance)
            }
        },
    }
}

fn first_fault(
    alloc: Global,
    table: &BoxTable<'_>,
    nets: &Declarations<'_>,
    items: &[Item],
) -> Result<Option<BoxFault>, OutOfMemory>
    ensures { IfOk result (λ fault. fault ≡ first_in (faults.link_fault table.now nets.now) items.now) }
{
    for item in items {
        match item_fault(alloc, table, nets, item)? {
            Some(fault) => return Ok(Some(fault)),
            None => {}
        }
    }
    Ok(None)
}

/// The first link of a box instance that can't be opened.
pub fn find_link_fault(
    alloc: Global,
    table: &BoxTable<'_>,
    tree: &Module,
) -> Result<Option<BoxFault>, OutOfMemory>
    ensures { IfOk result (λ fault. fault ≡ first_in (faults.link_fault table.now tree.now) tree.now.items) }
{
    let nets = Declarations::of(alloc, tree)?;
    let fault = first_fault(alloc, table, &nets, tree.items.as_slice())?;
    Ok(fault)
}
