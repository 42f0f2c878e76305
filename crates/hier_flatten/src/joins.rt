// Assignments that stand for links.
ghost use Rattle.std.specs.Prelude.{◌≡◌, ◌++◌, ◌<◌, map, length, position, slice_get, Some, IfOk, OnOk};
ghost use Rattle.std.specs.Option.{option_copied};
ghost use Rattle.std.specs.Str.{bytes_eq};
ghost use Rattle.hier_model.specs.WalkNames.{texts};
ghost use Rattle.link_model.specs.Nets as model;
ghost use Rattle.link_model.specs.Cells as cells;
ghost use Rattle.hier_model.specs.Names as names;
ghost use Rattle.hier_model.specs.Entries as entries;
ghost use Rattle.hier_model.specs.Entries.{place};
ghost use Rattle.hier_flatten.specs.Joins as joins;
ghost use Rattle.hier_flatten.specs.Joins.{inward_items, outward_items, input_items, output_items};

use crate::copies::flat_operand;
use crate::names::flat_name;
use crate::nets::NetTable;
use hier_counts::width_of;
use indexmap::IndexMap;
use std::alloc::Global;
use std::marker::Model;
use texts::first_faults::first_places;
use texts::{OutOfMemory, Row};
use verilog_tree::{Bit, Dir, Instance, Item, Link, Module, Operand, Port, Range};

/// The links of an instance, found by the names of their ports: of one name the first is found.
#[derive(Drop)]
pub struct LinkTable<'a> {
    links: &'a [Link],
    places: IndexMap<&'a [u8], usize>,
}

impl<'a> Model for LinkTable<'a> {
    ghost use Rattle.std.specs.Prelude.{List};
    ghost use Rattle.verilog_tree.specs.declared.tree.Link.{Link};
    ghost use Rattle.hier_flatten.specs.Joins.{FindsLinks};

    ghost Value = { List Link };

    ghost view = { λ t. t.links.now };

    ghost invariant = { λ t. FindsLinks t.links.now t.places.entries };
}

fn ports_of<'a>(alloc: Global, links: &'a [Link]) -> Result<Vec<&'a [u8]>, OutOfMemory>
    ensures { IfOk result (λ names. texts names.items ≡ map (λ l. l.port) links.now) }
{
    let mut names = Vec::new(alloc);
    for link in links {
        names.push(link.port.as_bytes())?;
    }
    Ok(names)
}

impl<'a> LinkTable<'a> {
    /// A table of links.
    pub fn of(alloc: Global, links: &'a [Link]) -> Result<LinkTable<'a>, OutOfMemory>
        ensures { IfOk result (λ table. table ≡ links.now) }
    {
        let names = ports_of(alloc, links)?;
        let places = first_places(alloc, &names)?;
        Ok(LinkTable { links, places })
    }

    fn place(&self, port: &[u8]) -> Option<usize>
        ensures { result ≡ position (λ l. bytes_eq port.now l.port) self.now }
    {
        self.places.get(port).copied()
    }

    /// What the first link of a port connects.
    pub fn find(&self, port: &[u8]) -> Option<&'a Operand>
        ensures { option_copied result ≡ cells.linked_operand self.now port.now }
    {
        match self.place(port) {
            None => None,
            Some(place) => self.links[place].operand.as_ref(),
        }
    }
}

// The index of a bit, counted from the left; a scalar has none.
fn index_at(range: Option<Range>, place: u64) -> Option<u32>
    requires { place < model.width range }
    ensures { result ≡ model.index_at range place }
{
    let range = range?;
    if range.left <= range.right {
        Some((u64::from(range.left) + place) as u32)
    } else {
        Some((u64::from(range.left) - place) as u32)
    }
}

// A bit of a net at an occurrence, counted from the left.
fn bit_at(
    alloc: Global,
    at: &[&[u8]],
    name: &[u8],
    range: Option<Range>,
    place: u64,
) -> Result<Bit, OutOfMemory>
    requires { place < model.width range }
    ensures { IfOk result (λ bit. slice_get (map (names.flat_bit (texts at.now)) (entries.bits_of name.now range)) place ≡ Some bit) }
{
    Ok(Bit {
        net: flat_name(alloc, at, name)?,
        index: index_at(range, place),
    })
}

// The range of the net that an operand stands for as a whole; none where it is a bit or a constant, or names no net.
fn whole_range(nets: &NetTable, operand: &Operand) -> Option<Option<Range>>
    ensures { result ≡ joins.whole_range nets.now operand.now }
{
    let Operand::Bit(bit) = operand else {
        return None;
    };
    if bit.index.is_some() {
        return None;
    }
    nets.range(bit.net.as_bytes())
}

// How many bits an operand is joined as.
fn bit_count(nets: &NetTable, operand: &Operand) -> u64
    ensures { result ≡ length (entries.spread nets.now operand.now) }
{
    match whole_range(nets, operand) {
        Some(range) => width_of(range),
        None => 1,
    }
}

// A bit of an operand at an occurrence, counted from the left.
fn operand_at(
    alloc: Global,
    nets: &NetTable,
    at: &[&[u8]],
    operand: &Operand,
    place: u64,
) -> Result<Operand, OutOfMemory>
    requires { place < length (entries.spread nets.now operand.now) }
    ensures { IfOk result (λ flat. slice_get (map (names.flat_operand (texts at.now)) (entries.spread nets.now operand.now)) place ≡ Some flat) }
{
    let Some(range) = whole_range(nets, operand) else {
        return flat_operand(alloc, at, operand);
    };
    match operand {
        Operand::Bit(bit) => {
            let bit = bit_at(alloc, at, bit.net.as_bytes(), range, place)?;
            Ok(Operand::Bit(bit))
        }
        Operand::Const(value) => Ok(Operand::Const(*value)),
    }
}

/// The two sides of a link: where the instance stands and what its module declares, and where it leads and
/// to which module.
#[derive(Clone, Copy)]
pub struct Sides<'a, 'b> {
    pub outer: &'a [&'b [u8]],
    pub nets: &'a NetTable<'b>,
    pub inner: &'a [&'b [u8]],
    pub child: &'b Module,
}

fn is_input(port: &Port) -> bool
    ensures { result ≡ entries.is_in port.now.dir }
{
    match port.dir {
        Dir::Input => true,
        Dir::Output | Dir::Inout => false,
    }
}

fn is_output(port: &Port) -> bool
    ensures { result ≡ entries.is_out port.now.dir }
{
    match port.dir {
        Dir::Output => true,
        Dir::Input | Dir::Inout => false,
    }
}

// An input's bit equals the operand's.
fn push_inwards(
    alloc: Global,
    sides: Sides,
    port: &Port,
    operand: &Operand,
    items: &mut Row<Item>,
) -> Result<(), OutOfMemory>
    ensures { OnOk result (items.new ≡ items.old ++ inward_items (place (texts sides.entry.outer.now) sides.entry.nets.now) (place (texts sides.entry.inner.now) sides.entry.child.now) port.now operand.now) }
{
    let count = width_of(port.range).min(bit_count(sides.nets, operand));
    for place in 0..count {
        let output = bit_at(alloc, sides.inner, port.name.as_bytes(), port.range, place)?;
        let input = operand_at(alloc, sides.nets, sides.outer, operand, place)?;
        items.push(Item::Assign { output, input })?;
    }
    Ok(())
}

// The operand's bit equals the output's.
fn push_outwards(
    alloc: Global,
    sides: Sides,
    port: &Port,
    operand: &Operand,
    items: &mut Row<Item>,
) -> Result<(), OutOfMemory>
    ensures { OnOk result (items.new ≡ items.old ++ outward_items (place (texts sides.entry.outer.now) sides.entry.nets.now) (place (texts sides.entry.inner.now) sides.entry.child.now) port.now operand.now) }
{
    let count = width_of(port.range).min(bit_count(sides.nets, operand));
    for place in 0..count {
        let input = bit_at(alloc, sides.inner, port.name.as_bytes(), port.range, place)?;
        let flat = operand_at(alloc, sides.nets, sides.outer, operand, place)?;
        match flat {
            Operand::Bit(output) => {
                let input = Operand::Bit(input);
                items.push(Item::Assign { output, input })?;
            }
            Operand::Const(_) => {}
        }
    }
    Ok(())
}

/// Adds the assignments for the linked inputs of an instance, in the order of the child's ports.
pub fn push_inputs(
    alloc: Global,
    sides: Sides,
    instance: &Instance,
    items: &mut Row<Item>,
) -> Result<(), OutOfMemory>
    ensures { OnOk result (items.new ≡ items.old ++ input_items (place (texts sides.entry.outer.now) sides.entry.nets.now) (place (texts sides.entry.inner.now) sides.entry.child.now) instance.now) }
{
    let links = LinkTable::of(alloc, instance.links.as_slice())?;
    for port in sides.child.ports.as_slice() {
        if is_input(port) {
            if let Some(operand) = links.find(port.name.as_bytes()) {
                push_inwards(alloc, sides, port, operand, items)?;
            }
        }
    }
    Ok(())
}

/// Adds the assignments for the linked outputs.
pub fn push_outputs(
    alloc: Global,
    sides: Sides,
    instance: &Instance,
    items: &mut Row<Item>,
) -> Result<(), OutOfMemory>
    ensures { OnOk result (items.new ≡ items.old ++ output_items (place (texts sides.entry.outer.now) sides.entry.nets.now) (place (texts sides.entry.inner.now) sides.entry.child.now) instance.now) }
{
    let links = LinkTable::of(alloc, instance.links.as_slice())?;
    for port in sides.child.ports.as_slice() {
        if is_output(port) {
            if let Some(operand) = links.find(port.name.as_bytes()) {
                push_outwards(alloc, sides, port, operand, items)?;
            }
        }
    }
    Ok(())
}
