// The items of the core.
ghost use Rattle.std.specs.Prelude.{◌≡◌, IfOk, map};
ghost use Rattle.std.specs.Option.{option_copied, option_map};
ghost use Rattle.strip_model.specs.Core as model;

use crate::copies::{copy_bit, copy_name};
use crate::side_table::SideTable;
use plan_fitting::copies::text_copy;
use std::alloc::Global;
use texts::{OutOfMemory, Row};
use verilog_tree::{Bit, Gate, Instance, Item, Link, Operand};

fn core_bit(alloc: Global, table: &SideTable, bit: &Bit) -> Result<Bit, OutOfMemory>
    ensures { IfOk result (λ core. core ≡ model.core_bit table.now bit.now) }
{
    let operand = Operand::Bit(copy_bit(alloc, bit)?);
    match table.core_operand(alloc, &operand)? {
        Operand::Bit(found) => Ok(found),
        Operand::Const(_) => copy_bit(alloc, bit),
    }
}

fn core_inputs(
    alloc: Global,
    table: &SideTable,
    inputs: &[Operand],
) -> Result<Row<Operand>, OutOfMemory>
    ensures { IfOk result (λ core. core ≡ map (model.core_operand table.now) inputs.now) }
{
    let mut core = Row::new(alloc);
    for input in inputs {
        let made = table.core_operand(alloc, input)?;
        core.push(made)?;
    }
    Ok(core)
}

fn core_connection(
    alloc: Global,
    table: &SideTable,
    operand: &Option<Operand>,
) -> Result<Option<Operand>, OutOfMemory>
    ensures { IfOk result (λ core. core ≡ option_map (model.core_operand table.now) operand.now) }
{
    match operand {
        Some(operand) => Ok(Some(table.core_operand(alloc, operand)?)),
        None => Ok(None),
    }
}

fn core_link(alloc: Global, table: &SideTable, link: &Link) -> Result<Link, OutOfMemory>
    ensures { IfOk result (λ core. core ≡ model.core_link table.now link.now) }
{
    Ok(Link {
        port: text_copy(alloc, &link.port)?,
        operand: core_connection(alloc, table, &link.operand)?,
    })
}

fn core_links(alloc: Global, table: &SideTable, links: &[Link]) -> Result<Row<Link>, OutOfMemory>
    ensures { IfOk result (λ core. core ≡ map (model.core_link table.now) links.now) }
{
    let mut core = Row::new(alloc);
    for link in links {
        let made = core_link(alloc, table, link)?;
        core.push(made)?;
    }
    Ok(core)
}

fn core_gate(alloc: Global, table: &SideTable, gate: &Gate) -> Result<Item, OutOfMemory>
    ensures { IfOk result (λ core. core ≡ model.core_item table.now (Item.Gate gate.now)) }
{
    Ok(Item::Gate(Gate {
        kind: gate.kind,
        name: copy_name(alloc, &gate.name)?,
        output: core_bit(alloc, table, &gate.output)?,
        inputs: core_inputs(alloc, table, gate.inputs.as_slice())?,
    }))
}

fn core_instance(alloc: Global, table: &SideTable, instance: &Instance) -> Result<Item, OutOfMemory>
    ensures { IfOk result (λ core. core ≡ model.core_item table.now (Item.Instance instance.now)) }
{
    Ok(Item::Instance(Instance {
        cell: text_copy(alloc, &instance.cell)?,
        name: text_copy(alloc, &instance.name)?,
        links: core_links(alloc, table, instance.links.as_slice())?,
    }))
}

fn core_item(alloc: Global, table: &SideTable, item: &Item) -> Result<Item, OutOfMemory>
    ensures { IfOk result (λ core. core ≡ model.core_item table.now item.now) }
{
    match item {
        Item::Gate(gate) => core_gate(alloc, table, gate),
        Item::Instance(instance) => core_instance(alloc, table, instance),
        Item::Assign { output, input } => Ok(Item::Assign {
            output: core_bit(alloc, table, output)?,
            input: table.core_operand(alloc, input)?,
        }),
    }
}

/// The name of an item; an `assign` and a gate without one have none.
pub fn name_of(item: &Item) -> Option<&[u8]>
    ensures { option_copied result ≡ model.name_of item.now }
{
    match item {
        Item::Gate(gate) => match &gate.name {
            Some(name) => Some(name.as_bytes()),
            None => None,
        },
        Item::Instance(instance) => Some(instance.name.as_bytes()),
        Item::Assign { .. } => None,
    }
}

// Whether the item was added.
fn is_added(prefix: &[u8], item: &Item) -> bool
    ensures { result ≡ model.is_added prefix.now item.now }
{
    match name_of(item) {
        Some(name) => name.starts_with(prefix),
        None => false,
    }
}

/// The items of the core: those before the first added one, with what the core had in the place of each operand.
pub fn core_items(
    alloc: Global,
    prefix: &[u8],
    table: &SideTable,
    items: &[Item],
) -> Result<Row<Item>, OutOfMemory>
    ensures { IfOk result (λ core. core
        ≡ map (model.core_item table.now) (model.before_added prefix.now items.now)) }
{
    let mut core = Row::new(alloc);
    for item in items {
        if is_added(prefix, item) {
            return Ok(core);
        }
        let made = core_item(alloc, table, item)?;
        core.push(made)?;
    }
    Ok(core)
}
