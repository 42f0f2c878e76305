// Instances of cells that the library lacks, and links that their cells can't have.
ghost use Rattle.std.specs.Prelude.{◌≡◌, ◌&&◌, map, is_none, IfOk};
ghost use Rattle.std.specs.List.{list_any};
ghost use Rattle.std.specs.Str.{bytes_eq};
ghost use Rattle.cell_library.specs.Library.{operand_ports};
ghost use Rattle.verilog_tree.specs.declared.tree.Link.{Link};
ghost use Rattle.link_model.specs.Lists.{first_in, repeated};
ghost use Rattle.link_model.specs.Cells.{bytes_of};
ghost use Rattle.link_model.specs.Faults as text;
ghost use Rattle.link_names.specs.CellNumbers.{HasNumbers};
ghost use Rattle.link_names.specs.Tests.{unknown_port, missing_port, port_linked_twice, port_test, instance_faults_in};

use crate::cell_numbers::kind_of;
use cell_library::{Kind, Library, operand_port, operand_port_count, port_of};
use indexmap::IndexMap;
use link_model::LinkFault;
use std::alloc::Global;
use texts::{OutOfMemory, Text};
use verilog_tree::{Instance, Item, Link};

/// A test of an instance and its kind.
#[derive(Clone, Copy)]
pub enum PortTest {
    PortUnknown,
    PortMissing,
    PortTwice,
}

fn find_cell_unknown(
    alloc: Global,
    library: &Library,
    numbers: &IndexMap<&[u8], u32>,
    items: &[Item],
) -> Result<Option<LinkFault>, OutOfMemory>
    requires numbers { HasNumbers library.now numbers.now }
    ensures { IfOk result (λ fault. fault ≡ first_in (text.cell_unknown library.now) items.now) }
{
    for item in items {
        if let Item::Instance(instance) = item {
            if kind_of(library, numbers, instance.cell.as_bytes()).is_none() {
                let name = Text::from_bytes(alloc, instance.cell.as_bytes())?;
                return Ok(Some(LinkFault::CellUnknown { name }));
            }
        }
    }
    Ok(None)
}

fn find_port_unknown(
    alloc: Global,
    library: &Library,
    name: &[u8],
    links: &[Link],
    kind: Kind,
) -> Result<Option<LinkFault>, OutOfMemory>
    ensures { IfOk result (λ fault. fault ≡ unknown_port library.now name.now kind links.now) }
{
    for link in links {
        if port_of(library, kind, link.port.as_bytes()).is_none() {
            let instance = Text::from_bytes(alloc, name)?;
            let port = Text::from_bytes(alloc, link.port.as_bytes())?;
            return Ok(Some(LinkFault::PortUnknown { instance, port }));
        }
    }
    Ok(None)
}

fn is_linked(links: &[Link], port: &[u8]) -> bool
    ensures { result ≡ list_any (λ (l : Link). bytes_eq l.port port.now) links.now }
{
    links.iter().any(|link| link.port.as_bytes() == port)
}

fn is_left_open(links: &[Link], port: &[u8]) -> bool
    ensures { result
        ≡ list_any (λ (l : Link). bytes_eq l.port port.now && is_none l.operand) links.now }
{
    links.iter().any(|link| link.port.as_bytes() == port && link.operand.is_none())
}

fn is_connected(links: &[Link], port: &[u8]) -> bool
    ensures { result ≡ text.is_connected links.now port.now }
{
    is_linked(links, port) && !is_left_open(links, port)
}

fn find_port_missing(
    alloc: Global,
    library: &Library,
    name: &[u8],
    links: &[Link],
    kind: Kind,
) -> Result<Option<LinkFault>, OutOfMemory>
    ensures { IfOk result (λ fault. fault ≡ missing_port name.now links.now
        (operand_ports library.now kind)) }
{
    for place in 0..operand_port_count(library, kind) {
        let port = operand_port(library, kind, place);
        if !is_connected(links, port) {
            let instance = Text::from_bytes(alloc, name)?;
            let port = Text::from_bytes(alloc, port)?;
            return Ok(Some(LinkFault::PortMissing { instance, port }));
        }
    }
    Ok(None)
}

// The first port that a link before it has. Where each port is one of the cell's, it stands
// among the first few links, so the search is short.
fn repeated_port(links: &[Link]) -> Option<&[u8]>
    ensures { bytes_of result ≡ repeated (map (λ (l : Link). l.port) links.now) }
{
    for (place, link) in links.iter().enumerate() {
        let port = link.port.as_bytes();
        if is_linked(&links[..place], port) {
            return Some(port);
        }
    }
    None
}

fn find_port_twice(
    alloc: Global,
    name: &[u8],
    links: &[Link],
) -> Result<Option<LinkFault>, OutOfMemory>
    ensures { IfOk result (λ fault. fault ≡ port_linked_twice name.now links.now) }
{
    match repeated_port(links) {
        Some(port) => {
            let instance = Text::from_bytes(alloc, name)?;
            let port = Text::from_bytes(alloc, port)?;
            Ok(Some(LinkFault::PortTwice { instance, port }))
        }
        None => Ok(None),
    }
}

fn check_instance(
    alloc: Global,
    library: &Library,
    test: PortTest,
    instance: &Instance,
    kind: Kind,
) -> Result<Option<LinkFault>, OutOfMemory>
    ensures { IfOk result (λ fault. fault ≡ port_test library.now test instance.now kind) }
{
    let name = instance.name.as_bytes();
    let links = instance.links.as_slice();
    match test {
        PortTest::PortUnknown => find_port_unknown(alloc, library, name, links, kind),
        PortTest::PortMissing => find_port_missing(alloc, library, name, links, kind),
        PortTest::PortTwice => find_port_twice(alloc, name, links),
    }
}

fn check_item(
    alloc: Global,
    library: &Library,
    numbers: &IndexMap<&[u8], u32>,
    test: PortTest,
    item: &Item,
) -> Result<Option<LinkFault>, OutOfMemory>
    requires numbers { HasNumbers library.now numbers.now }
    ensures { IfOk result (λ fault. fault
        ≡ text.at_instance library.now (port_test library.now test) item.now) }
{
    let Item::Instance(instance) = item else {
        return Ok(None);
    };
    match kind_of(library, numbers, instance.cell.as_bytes()) {
        Some(kind) => check_instance(alloc, library, test, instance, kind),
        None => Ok(None),
    }
}

fn find_port(
    alloc: Global,
    library: &Library,
    numbers: &IndexMap<&[u8], u32>,
    test: PortTest,
    items: &[Item],
) -> Result<Option<LinkFault>, OutOfMemory>
    requires numbers { HasNumbers library.now numbers.now }
    ensures { IfOk result (λ fault. fault
        ≡ first_in (text.at_instance library.now (port_test library.now test)) items.now) }
{
    for item in items {
        match check_item(alloc, library, numbers, test, item)? {
            Some(fault) => return Ok(Some(fault)),
            None => {}
        }
    }
    Ok(None)
}

/// The first fault of the instances: of their cells, and then of their ports.
pub fn find_instance_fault(
    alloc: Global,
    library: &Library,
    numbers: &IndexMap<&[u8], u32>,
    items: &[Item],
) -> Result<Option<LinkFault>, OutOfMemory>
    requires numbers { HasNumbers library.now numbers.now }
    ensures { IfOk result (λ fault. fault ≡ instance_faults_in library.now items.now) }
{
    match find_cell_unknown(alloc, library, numbers, items)? {
        Some(fault) => return Ok(Some(fault)),
        None => {}
    }
    match find_port(alloc, library, numbers, PortTest::PortUnknown, items)? {
        Some(fault) => return Ok(Some(fault)),
        None => {}
    }
    match find_port(alloc, library, numbers, PortTest::PortMissing, items)? {
        Some(fault) => return Ok(Some(fault)),
        None => {}
    }
    find_port(alloc, library, numbers, PortTest::PortTwice, items)
}
