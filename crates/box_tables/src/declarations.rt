// What a module declares under names.
ghost use Rattle.std.specs.Prelude.{◌≡◌, ◌==◌, ◌&&◌, find, option_copied, IfOk};
ghost use Rattle.std.specs.Str.{bytes_eq};
ghost use Rattle.texts.specs.Repeated.{texts};
ghost use Rattle.verilog_tree.specs.Trees.{range_eq};
ghost use Rattle.box_tables.specs.Nets as nets;
ghost use Rattle.box_tables.specs.Nets.{port_names, wire_names};

use crate::hidden::is_same_range;
use crate::name_places::{NameCounts, NamePlaces};
use std::alloc::Global;
use std::marker::Model;
use texts::OutOfMemory;
use verilog_tree::{Bit, Module, Operand, Port, Range, Wire};

/// The ports and wires of a module, found by name, and how often each name is declared.
#[derive(Drop)]
pub struct Declarations<'a> {
    tree: &'a Module,
    port_places: NamePlaces<'a>,
    wire_places: NamePlaces<'a>,
    counts: NameCounts<'a>,
}

impl<'a> Model for Declarations<'a> {
    ghost use Rattle.verilog_tree.specs.declared.tree.Module.{Module};
    ghost use Rattle.box_tables.specs.Nets.{HoldsNets};

    ghost Value = { Module };

    ghost view = { λ t. t.tree.now };

    ghost invariant = { λ t. HoldsNets t.tree.now t.port_places t.wire_places t.counts };
}

fn names_of_ports<'a>(alloc: Global, ports: &'a [Port]) -> Result<Vec<&'a [u8]>, OutOfMemory>
    ensures { IfOk result (λ names. texts names.items ≡ port_names ports.now) }
{
    let mut names = Vec::new(alloc);
    for port in ports {
        names.push(port.name.as_bytes())?;
    }
    Ok(names)
}

fn names_of_wires<'a>(alloc: Global, wires: &'a [Wire]) -> Result<Vec<&'a [u8]>, OutOfMemory>
    ensures { IfOk result (λ names. texts names.items ≡ wire_names wires.now) }
{
    let mut names = Vec::new(alloc);
    for wire in wires {
        names.push(wire.name.as_bytes())?;
    }
    Ok(names)
}

fn names_of_all<'a>(
    alloc: Global,
    ports: &'a [Port],
    wires: &'a [Wire],
) -> Result<Vec<&'a [u8]>, OutOfMemory>
    ensures { IfOk result (λ names. texts names.items ≡ nets.all_names ports.now wires.now) }
{
    let mut names = names_of_ports(alloc, ports)?;
    for wire in wires {
        names.push(wire.name.as_bytes())?;
    }
    Ok(names)
}

// Whether an operand is all of the net of this name.
fn is_whole(name: &[u8], operand: &Operand) -> bool
    ensures { result ≡ nets.names_whole name.now operand.now }
{
    match operand {
        Operand::Bit(bit) => is_whole_bit(name, bit),
        Operand::Const(_) => false,
    }
}

fn is_whole_bit(name: &[u8], bit: &Bit) -> bool
    ensures { result ≡ nets.names_whole name.now (Operand.Bit bit.now) }
{
    bit.net.as_bytes() == name && bit.index.is_none()
}

// Whether a wire that stands so often stands once and has this range.
fn is_one(times: usize, wire: &Wire, range: Option<Range>) -> bool
    ensures { result ≡ (times == 1 && range_eq wire.now.range range) }
{
    times == 1 && is_same_range(wire.range, range)
}

impl<'a> Declarations<'a> {
    /// A table of what a module declares.
    pub fn of(alloc: Global, tree: &'a Module) -> Result<Declarations<'a>, OutOfMemory>
        ensures { IfOk result (λ table. table ≡ tree.now) }
    {
        let ports = tree.ports.as_slice();
        let wires = tree.wires.as_slice();
        let names = names_of_ports(alloc, ports)?;
        let port_places = NamePlaces::of(alloc, names)?;
        let names = names_of_wires(alloc, wires)?;
        let wire_places = NamePlaces::of(alloc, names)?;
        let names = names_of_all(alloc, ports, wires)?;
        let counts = NameCounts::of(alloc, names)?;
        Ok(Declarations {
            tree,
            port_places,
            wire_places,
            counts,
        })
    }

    fn port(&self, name: &[u8]) -> Option<&'a Port>
        ensures { option_copied result ≡ find (λ p. bytes_eq name.now p.name) self.now.ports }
    {
        match self.port_places.find(name) {
            None => None,
            Some(place) => Some(&self.tree.ports.as_slice()[place]),
        }
    }

    fn wire(&self, name: &[u8]) -> Option<&'a Wire>
        ensures { option_copied result ≡ find (λ w. bytes_eq name.now w.name) self.now.wires }
    {
        match self.wire_places.find(name) {
            None => None,
            Some(place) => Some(&self.tree.wires.as_slice()[place]),
        }
    }

    /// The range of what is declared under a name; none where nothing is.
    pub fn range(&self, name: &[u8]) -> Option<Option<Range>>
        ensures { result ≡ nets.range_named self.now name.now }
    {
        if let Some(port) = self.port(name) {
            return Some(port.range);
        }
        let wire = self.wire(name)?;
        Some(wire.range)
    }

    // How often a name is declared.
    fn times(&self, name: &[u8]) -> usize
        ensures { result ≡ nets.times_declared self.now name.now }
    {
        self.counts.times(name)
    }

    // Whether a wire of this range is the one declaration of a name.
    fn has_one_wire(&self, name: &[u8], range: Option<Range>) -> bool
        ensures { result ≡ nets.is_one_wire self.now name.now range }
    {
        match self.wire(name) {
            Some(wire) => is_one(self.times(name), wire, range),
            None => false,
        }
    }

    /// Whether a port of this range with this hidden name is joined to the operand.
    pub fn joins(&self, hidden: &[u8], range: Option<Range>, operand: &Operand) -> bool
        ensures { result ≡ nets.is_joined_as self.now hidden.now range operand.now }
    {
        is_whole(hidden, operand) && self.has_one_wire(hidden, range)
    }
}
