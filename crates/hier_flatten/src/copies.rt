// Items at an occurrence, with flat names.
ghost use Rattle.std.specs.Prelude.{◌≡◌, map, IfOk};
ghost use Rattle.hier_model.specs.Walks.{texts};
ghost use Rattle.hier_model.specs.Names as names;

use crate::names::flat_name;
use std::alloc::Global;
use texts::{OutOfMemory, Row, Text};
use verilog_tree::{Bit, Gate, Instance, Item, Link, Operand};

/// The bit at an occurrence, with a flat name.
pub fn flat_bit(alloc: Global, at: &[&[u8]], bit: &Bit) -> Result<Bit, OutOfMemory>
    ensures { IfOk result (λ flat. flat ≡ names.flat_bit (texts at.now) bit.now) }
{
    Ok(Bit {
        net: flat_name(alloc, at, bit.net.as_bytes())?,
        index: bit.index,
    })
}

/// The operand at an occurrence, with flat names.
pub fn flat_operand(alloc: Global, at: &[&[u8]], operand: &Operand) -> Result<Operand, OutOfMemory>
    ensures { IfOk result (λ flat. flat ≡ names.flat_operand (texts at.now) operand.now) }
{
    match operand {
        Operand::Bit(bit) => Ok(Operand::Bit(flat_bit(alloc, at, bit)?)),
        Operand::Const(value) => Ok(Operand::Const(*value)),
    }
}

fn flat_operands(
    alloc: Global,
    at: &[&[u8]],
    operands: &[Operand],
) -> Result<Row<Operand>, OutOfMemory>
    ensures { IfOk result (λ flat. flat ≡ map (names.flat_operand (texts at.now)) operands.now) }
{
    let mut flat = Row::new(alloc);
    for operand in operands {
        flat.push(flat_operand(alloc, at, operand)?)?;
    }
    Ok(flat)
}

fn flat_gate(alloc: Global, at: &[&[u8]], gate: &Gate) -> Result<Item, OutOfMemory>
    ensures { IfOk result (λ flat. flat ≡ names.flat_item (texts at.now) (Item.Gate gate.now)) }
{
    let name = match &gate.name {
        Some(name) => Some(flat_name(alloc, at, name.as_bytes())?),
        None => None,
    };
    Ok(Item::Gate(Gate {
        kind: gate.kind,
        name,
        output: flat_bit(alloc, at, &gate.output)?,
        inputs: flat_operands(alloc, at, gate.inputs.as_slice())?,
    }))
}

fn flat_link(alloc: Global, at: &[&[u8]], link: &Link) -> Result<Link, OutOfMemory>
    ensures { IfOk result (λ flat. flat ≡ names.flat_link (texts at.now) link.now) }
{
    let operand = match &link.operand {
        Some(operand) => Some(flat_operand(alloc, at, operand)?),
        None => None,
    };
    Ok(Link {
        port: Text::from_bytes(alloc, link.port.as_bytes())?,
        operand,
    })
}

fn flat_links(alloc: Global, at: &[&[u8]], links: &[Link]) -> Result<Row<Link>, OutOfMemory>
    ensures { IfOk result (λ flat. flat ≡ map (names.flat_link (texts at.now)) links.now) }
{
    let mut flat = Row::new(alloc);
    for link in links {
        flat.push(flat_link(alloc, at, link)?)?;
    }
    Ok(flat)
}

fn flat_instance(alloc: Global, at: &[&[u8]], instance: &Instance) -> Result<Item, OutOfMemory>
    ensures { IfOk result (λ flat. flat ≡ names.flat_item (texts at.now) (Item.Instance instance.now)) }
{
    Ok(Item::Instance(Instance {
        cell: Text::from_bytes(alloc, instance.cell.as_bytes())?,
        name: flat_name(alloc, at, instance.name.as_bytes())?,
        links: flat_links(alloc, at, instance.links.as_slice())?,
    }))
}

/// An item at an occurrence.
pub fn flat_item(alloc: Global, at: &[&[u8]], item: &Item) -> Result<Item, OutOfMemory>
    ensures { IfOk result (λ flat. flat ≡ names.flat_item (texts at.now) item.now) }
{
    match item {
        Item::Gate(gate) => flat_gate(alloc, at, gate),
        Item::Instance(instance) => flat_instance(alloc, at, instance),
        Item::Assign { output, input } => Ok(Item::Assign {
            output: flat_bit(alloc, at, output)?,
            input: flat_operand(alloc, at, input)?,
        }),
    }
}
