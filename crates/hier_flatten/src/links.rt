// Links of instances of modules: the first that is at fault.
ghost use Rattle.std.specs.Prelude.{◌≡◌, ℕ, List, [], ◌||◌, ◌&&◌, not, true, false, IfOk, IsTrue};
ghost use Rattle.std.specs.Option.{option_map_or};
ghost use Rattle.texts.specs.Repeated.{bytes_of, has_name, seen};
ghost use Rattle.hier_model.specs.WalkNames.{texts};
ghost use Rattle.hier_model.specs.Visits.{has_levels, opens};
ghost use Rattle.hier_model.specs.Entries.{is_out, level_limit};
ghost use Rattle.hier_model.specs.Faults as faults;
ghost use Rattle.hier_flatten.specs.Nets as nets;
ghost use Rattle.hier_flatten.specs.Visited.{IsListed};

use crate::names::flat_name;
use crate::nets::{NetTable, NetTables};
use hier_counts::{note, width_of};
use hier_model::HierFault;
use hier_model::walk::{Turn, Walk};
use indexmap::IndexSet;
use std::alloc::Global;
use texts::{OutOfMemory, Text};
use verilog_tree::{Dir, Instance, Link, Module, Operand, Port};

// Whether an operand can't be linked to a port.
fn is_bad_operand(parent: &NetTable, port: &Port, operand: &Operand) -> bool
    ensures { result ≡ faults.is_bad_operand parent.now port.now operand.now }
{
    let is_barred = match (port.dir, operand) {
        (Dir::Inout, _) | (Dir::Output, Operand::Const(_)) => true,
        (Dir::Output, Operand::Bit(_)) | (Dir::Input, _) => false,
    };
    is_barred || parent.width(operand) != Some(width_of(port.range))
}

// Whether a link is at fault, where its port was linked before or not.
fn is_bad_link(parent: &NetTable, child: &NetTable, is_new: bool, link: &Link) -> bool
    ensures { result ≡ option_map_or (λ p. not is_new || option_map_or (faults.is_bad_operand parent.now p) link.now.operand false) (faults.port_named child.now link.now.port) true }
{
    let Some(port) = child.port(link.port.as_bytes()) else {
        return true;
    };
    if !is_new {
        return true;
    }
    match &link.operand {
        None => false,
        Some(operand) => is_bad_operand(parent, port, operand),
    }
}

// The first link at fault.
fn bad_link<'a>(
    alloc: Global,
    parent: &NetTable,
    child: &NetTable,
    links: &'a [Link],
) -> Result<Option<&'a [u8]>, OutOfMemory>
    ensures { IfOk result (λ port. bytes_of port ≡ faults.bad_link parent.now child.now [] links.now) }
{
    let mut had = IndexSet::new(alloc);
    for link in links {
        let name = link.port.as_bytes();
        let is_new = note(&mut had, name)?;
        if is_bad_link(parent, child, is_new, link) {
            return Ok(Some(name));
        }
    }
    Ok(None)
}

// The names that some link connects.
fn linked_names<'a>(alloc: Global, links: &'a [Link]) -> Result<IndexSet<&'a [u8]>, OutOfMemory>
    ensures { IfOk result (λ names. (name : List ℕ) → has_name (seen names) name ≡ faults.is_linked links.now name) }
{
    let mut names = IndexSet::new(alloc);
    for link in links {
        if link.operand.is_some() {
            note(&mut names, link.port.as_bytes())?;
        }
    }
    Ok(names)
}

fn is_linked(names: &IndexSet<&[u8]>, name: &[u8]) -> bool
    ensures { result ≡ has_name (seen names.now) name.now }
{
    names.contains(name)
}

// Whether a port is an input or inout that has none of the names.
fn is_open(names: &IndexSet<&[u8]>, port: &Port) -> bool
    ensures { result ≡ (not (is_out port.now.dir) && not (has_name (seen names.now) port.now.name)) }
{
    match port.dir {
        Dir::Output => false,
        Dir::Input | Dir::Inout => !is_linked(names, port.name.as_bytes()),
    }
}

// The first input or inout without a link, or with an empty one.
fn unlinked<'a>(names: &IndexSet<&[u8]>, ports: &'a [Port]) -> Option<&'a [u8]>
    ensures { bytes_of result ≡ nets.first_open (seen names.now) ports.now }
{
    for port in ports {
        if is_open(names, port) {
            return Some(port.name.as_bytes());
        }
    }
    None
}

// The first port at fault of an instance of a module.
fn bad_port<'a>(
    alloc: Global,
    parent: &NetTable,
    child: &NetTable<'a>,
    instance: &'a Instance,
) -> Result<Option<&'a [u8]>, OutOfMemory>
    ensures { IfOk result (λ port. bytes_of port ≡ faults.bad_port parent.now instance.now child.now) }
{
    let links = instance.links.as_slice();
    match bad_link(alloc, parent, child, links)? {
        Some(port) => return Ok(Some(port)),
        None => {}
    }
    let names = linked_names(alloc, links)?;
    Ok(unlinked(&names, child.module().ports.as_slice()))
}

// The fault of an instance, in the module at an occurrence.
fn instance_fault(
    alloc: Global,
    tables: &NetTables,
    at: &[&[u8]],
    within: &Module,
    instance: &Instance,
    child: &Module,
) -> Result<Option<HierFault>, OutOfMemory>
    requires within { IsListed tables.now within.now }
    requires child { IsListed tables.now child.now }
    ensures { IfOk result (λ fault. fault ≡ faults.turn_link (texts at.now) within.now (opens instance.now child.now)) }
{
    let Some(parent) = tables.find(within) else {
        unreachable!()
    };
    let Some(nets) = tables.find(child) else {
        unreachable!()
    };
    match bad_port(alloc, parent, nets, instance)? {
        None => Ok(None),
        Some(port) => Ok(Some(HierFault::ModuleLink {
            instance: flat_name(alloc, at, instance.name.as_bytes())?,
            port: Text::from_bytes(alloc, port)?,
        })),
    }
}

/// The first instance at fault in flat order.
pub fn find_bad_link(
    alloc: Global,
    tables: &NetTables,
    top: &Module,
) -> Result<Option<HierFault>, OutOfMemory>
    requires listed { IsListed tables.now top.now }
    requires levels { IsTrue (has_levels level_limit tables.now top.now) }
    ensures { IfOk result (λ fault. fault ≡ faults.bad_link_in tables.now top.now) }
{
    let mut walk = Walk::new(alloc, tables.modules(), top)?;
    while let Some(step) = walk.next()? {
        if let Turn::Opens(instance, child) = step.turn {
            let at = &walk.path.as_slice()[..step.depth];
            match instance_fault(alloc, tables, at, step.within, instance, child)? {
                Some(fault) => return Ok(Some(fault)),
                None => {}
            }
        }
    }
    Ok(None)
}
