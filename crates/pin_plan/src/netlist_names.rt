// The names of a linked netlist, and the widths of its ports.
ghost use Rattle.std.specs.Prelude.{◌≡◌, ◌++◌, ◌<◌, [], IfOk, OnOk, Some, length, option_and_then, slice_get};
ghost use Rattle.std.specs.List.{cons_option, enumerate_from};
ghost use Rattle.std.specs.Option.{option_map};
ghost use Rattle.netlist_model.specs.Lists.{cell_at};
ghost use Rattle.netlist_link.specs.Hidden.{EndsHidden};
ghost use Rattle.netlist_link.specs.WellNamed.{IsKnown};
ghost use Rattle.link_model.specs.Denoted.{name_bytes};
ghost use Rattle.texts.specs.Repeated.{bytes_of, texts};
ghost use Rattle.plan_fitting.specs.Names as fitting;
ghost use Rattle.pin_plan.specs.Marks.{MarksHidden};
ghost use Rattle.pin_plan.specs.Names.{inner_names, net_name_if, net_names_if};

use crate::hidden::hidden_marks;
use netlist_arena::Netlist;
use netlist_link::Linked;
use netlist_model::{CellId, Name, NetId, PortId, width_of};
use std::alloc::Global;
use texts::OutOfMemory;

/// How many bits a port has.
pub fn port_width(netlist: &Netlist, port: PortId) -> u32
    requires { port.0 < length netlist.now.lists.ports }
    ensures { option_map (λ p. length p.nets) (slice_get netlist.now.lists.ports port.0) ≡ Some result }
{
    netlist.is_laid_out();
    let _pins = netlist.pin_count();
    let width = width_of(netlist.port_range(port));
    width as u32
}

// The bytes of a name of the table; a name that was added later has none.
fn text_of(linked: &Linked, name: Name) -> Option<&[u8]>
    requires { IsKnown linked.now.names name }
    ensures { bytes_of result ≡ name_bytes linked.now.names name }
{
    match name {
        Name::Original(_) => Some(linked.name_text(name)),
        Name::Added(_) => None,
    }
}

/// The name of a port.
pub fn text_of_port(linked: &Linked, port: PortId) -> &[u8]
    requires { port.0 < length linked.now.arena.lists.ports }
    ensures { option_and_then (λ p. name_bytes linked.now.names p.name)
        (slice_get linked.now.arena.lists.ports port.0) ≡ Some result.now }
{
    linked.name_text(linked.netlist().port_name(port))
}

/// The names of the ports that aren't hidden.
pub fn port_names(alloc: Global, linked: &Linked) -> Result<Vec<&[u8]>, OutOfMemory>
    ensures { IfOk result (λ names. texts names.items ≡ fitting.port_names linked.now) }
{
    let mut names = Vec::new(alloc);
    for number in 0..linked.own_port_count() {
        names.push(text_of_port(linked, PortId(number)))?;
    }
    Ok(names)
}

// Adds a name, if there is one.
fn add_name<'a>(names: &mut Vec<&'a [u8]>, name: Option<&'a [u8]>) -> Result<(), OutOfMemory>
    ensures { OnOk result (texts names.new.items ≡ texts names.old.items
        ++ cons_option (bytes_of name.entry) []) }
{
    match name {
        None => Ok(()),
        Some(name) => {
            names.push(name)?;
            Ok(())
        }
    }
}

// The name of a net, if it is hidden as is asked and has one of the table.
fn text_of_net<'a>(
    linked: &'a Linked,
    marks: &[bool],
    net: NetId,
    are_hidden: bool,
) -> Option<&'a [u8]>
    requires there { net.0 < length linked.now.arena.lists.nets }
    requires marks { MarksHidden linked.now marks.now }
    ensures { bytes_of result ≡ option_and_then (net_name_if linked.now are_hidden)
        (slice_get (enumerate_from 0 linked.now.arena.lists.nets) net.0) }
{
    if marks[net.0 as usize] != are_hidden {
        return None;
    }
    text_of(linked, linked.netlist().net_name(net))
}

// Adds the names of nets: of hidden ones, or of the others, which are the own ports' nets and wires.
fn add_net_names<'a>(
    names: &mut Vec<&'a [u8]>,
    linked: &'a Linked,
    marks: &[bool],
    are_hidden: bool,
) -> Result<(), OutOfMemory>
    requires { MarksHidden linked.now marks.now }
    ensures { OnOk result (texts names.new.items ≡ texts names.old.items
        ++ net_names_if linked.now are_hidden) }
{
    for number in 0..linked.netlist().net_count() {
        add_name(names, text_of_net(linked, marks, NetId(number), are_hidden))?;
    }
    Ok(())
}

// The name of a cell, if it has one of the table.
fn text_of_cell(linked: &Linked, cell: CellId) -> Option<&[u8]>
    ensures { bytes_of result ≡ fitting.name_of_cell linked.now.names
        (cell_at linked.now.arena.lists cell.0) }
{
    let netlist = linked.netlist();
    if !netlist.is_live(cell) {
        return None;
    }
    text_of(linked, netlist.cell_name(cell)?)
}

// Adds the names of gates and instances.
fn add_cell_names<'a>(names: &mut Vec<&'a [u8]>, linked: &'a Linked) -> Result<(), OutOfMemory>
    ensures { OnOk result (texts names.new.items ≡ texts names.old.items
        ++ fitting.cell_names linked.now) }
{
    for number in 0..linked.netlist().cell_bound() {
        add_name(names, text_of_cell(linked, CellId(number)))?;
    }
    Ok(())
}

/// The names of the own ports' nets and of wires, those of gates and instances, and those of hidden bits. One of these
/// begins with an instance's name, so what stands against it stands against the instance's, which comes first.
pub fn inner_names(alloc: Global, linked: &Linked) -> Result<Vec<&[u8]>, OutOfMemory>
    requires { EndsHidden linked.now }
    ensures { IfOk result (λ names. texts names.items ≡ inner_names linked.now) }
{
    let marks = hidden_marks(alloc, linked)?;
    let mut names = Vec::new(alloc);
    add_net_names(&mut names, linked, &marks, false)?;
    add_cell_names(&mut names, linked)?;
    add_net_names(&mut names, linked, &marks, true)?;
    Ok(names)
}
