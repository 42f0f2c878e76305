// The ports that are cut at an instance, found by name.
ghost use Rattle.std.specs.Prelude.{◌≡◌, ◌++◌, ◌∷◌, [], filter, option_copied, IfOk, OnOk};
ghost use Rattle.std.specs.List.{list_any};
ghost use Rattle.std.specs.Str.{bytes_eq};
ghost use Rattle.texts.specs.Repeated.{texts};
ghost use Rattle.box_model.specs.Ports as ports;
ghost use Rattle.box_model.specs.Faults as faults;
ghost use Rattle.box_tables.specs.CutPorts as cut;
ghost use Rattle.box_tables.specs.CutPorts.{box_port_names, is_of};

use crate::copies::copy_of_port;
use crate::name_places::NamePlaces;
use box_model::{BoxCell, BoxDir, BoxPort};
use link_model::width_of;
use std::alloc::Global;
use std::marker::Model;
use texts::{OutOfMemory, Row, Text};

/// The ports that are cut at an instance of a cell, in the order in which they are hidden.
#[derive(Drop)]
pub struct PortTable<'a> {
    ports: Row<BoxPort>,
    places: NamePlaces<'a>,
}

impl<'a> Model for PortTable<'a> {
    ghost use Rattle.std.specs.Prelude.{◌≡◌, List};
    ghost use Rattle.box_model.specs.declared.boxes.BoxPort.{BoxPort};
    ghost use Rattle.box_tables.specs.CutPorts.{box_port_names};

    ghost Value = { List BoxPort };

    ghost view = { λ t. t.ports };

    ghost invariant = { λ t. t.places ≡ box_port_names t.ports };
}

/// Whether a port has one bit.
pub fn is_narrow(port: &BoxPort) -> bool
    ensures { result ≡ ports.is_narrow port.now }
{
    width_of(port.range) == 1
}

// Adds a port that is narrow, or one that isn't.
fn add_port(
    alloc: Global,
    list: &mut Row<BoxPort>,
    port: &BoxPort,
    narrow: bool,
) -> Result<(), OutOfMemory>
    ensures { OnOk result (list.new ≡ list.old ++ filter (is_of narrow) (port.now ∷ [])) }
{
    if is_narrow(port) == narrow {
        list.push(copy_of_port(alloc, port)?)?;
    }
    Ok(())
}

fn add_ports(
    alloc: Global,
    list: &mut Row<BoxPort>,
    from: &[BoxPort],
    narrow: bool,
) -> Result<(), OutOfMemory>
    ensures { OnOk result (list.new ≡ list.old ++ filter (is_of narrow) from.now) }
{
    for port in from {
        add_port(alloc, list, port, narrow)?;
    }
    Ok(())
}

// Those of one bit first, so that what is parted stands last.
fn narrow_first(alloc: Global, from: &[BoxPort]) -> Result<Row<BoxPort>, OutOfMemory>
    ensures { IfOk result (λ list. list ≡ ports.narrow_first from.now) }
{
    let mut list = Row::new(alloc);
    add_ports(alloc, &mut list, from, true)?;
    add_ports(alloc, &mut list, from, false)?;
    Ok(list)
}

fn add_name<'a>(
    names: &mut Vec<&'a [u8]>,
    port: &'a BoxPort,
    narrow: bool,
) -> Result<(), OutOfMemory>
    ensures { OnOk result (texts names.new.items
        ≡ texts names.old.items ++ box_port_names (filter (is_of narrow) (port.now ∷ []))) }
{
    if is_narrow(port) == narrow {
        names.push(port.name.as_bytes())?;
    }
    Ok(())
}

fn add_names<'a>(
    names: &mut Vec<&'a [u8]>,
    from: &'a [BoxPort],
    narrow: bool,
) -> Result<(), OutOfMemory>
    ensures { OnOk result (texts names.new.items
        ≡ texts names.old.items ++ box_port_names (filter (is_of narrow) from.now)) }
{
    for port in from {
        add_name(names, port, narrow)?;
    }
    Ok(())
}

// The names in the same order.
fn names_of<'a>(alloc: Global, from: &'a [BoxPort]) -> Result<Vec<&'a [u8]>, OutOfMemory>
    ensures { IfOk result (λ names. texts names.items
        ≡ box_port_names (ports.narrow_first from.now)) }
{
    let mut names = Vec::new(alloc);
    add_names(&mut names, from, true)?;
    add_names(&mut names, from, false)?;
    Ok(names)
}

impl<'a> PortTable<'a> {
    /// The ports of a box, those of one bit first.
    pub(crate) fn of_box(alloc: Global, cell: &'a BoxCell) -> Result<PortTable<'a>, OutOfMemory>
        ensures { IfOk result (λ table. table ≡ cut.cut_in_box cell.now) }
    {
        let from = cell.ports.as_slice();
        let list = narrow_first(alloc, from)?;
        let names = names_of(alloc, from)?;
        let places = NamePlaces::of(alloc, names)?;
        Ok(PortTable {
            ports: list,
            places,
        })
    }

    /// The output of a flip-flop.
    pub(crate) fn of_output(alloc: Global, output: &'a [u8]) -> Result<PortTable<'a>, OutOfMemory>
        ensures { IfOk result (λ table. table ≡ ports.given_scalar output.now) }
    {
        let mut list = Row::new(alloc);
        list.push(BoxPort {
            name: Text::from_bytes(alloc, output)?,
            dir: BoxDir::Gives,
            range: None,
        })?;
        let mut names = Vec::new(alloc);
        names.push(output)?;
        let places = NamePlaces::of(alloc, names)?;
        Ok(PortTable {
            ports: list,
            places,
        })
    }

    /// The ports in order.
    pub fn as_slice(&self) -> &[BoxPort]
        ensures { result.now ≡ self.now }
    {
        self.ports.as_slice()
    }

    /// The port of a name.
    pub fn find(&self, name: &[u8]) -> Option<&BoxPort>
        ensures { option_copied result ≡ faults.port_named self.now name.now }
    {
        match self.places.find(name) {
            None => None,
            Some(place) => Some(&self.ports.as_slice()[place]),
        }
    }

    /// Whether a port has this name.
    pub fn has(&self, name: &[u8]) -> bool
        ensures { result ≡ list_any (λ p. bytes_eq p.name name.now) self.now }
    {
        self.places.has(name)
    }
}
