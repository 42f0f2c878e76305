// How many bits of cut ports get an assign, and the limits of the opened module, told before it is made.
ghost use Rattle.std.specs.Prelude.{◌≡◌, sum_by, IfOk};
ghost use Rattle.link_model.specs.Faults.{counted};
ghost use Rattle.box_model.specs.Counts as counts;
ghost use Rattle.box_trees.specs.Limits as limits;

use crate::limits::find_excess;
use box_model::BoxPort;
use box_tables::{BoxTable, Declarations, LinkTable, hidden_name};
use link_model::{LinkFault, width_of};
use std::alloc::Global;
use texts::OutOfMemory;
use verilog_tree::{Instance, Item, Module, Operand};

// Those of a linked port.
fn linked_bits(
    alloc: Global,
    nets: &Declarations<'_>,
    instance: &Instance,
    port: &BoxPort,
    operand: &Operand,
) -> Result<u64, OutOfMemory>
    ensures { IfOk result (λ bits. bits ≡ limits.linked_bits nets.now instance.now port.now operand.now) }
{
    let hidden = hidden_name(alloc, instance.name.as_bytes(), port.name.as_bytes())?;
    if nets.joins(hidden.as_bytes(), port.range, operand) {
        Ok(0)
    } else {
        Ok(width_of(port.range))
    }
}

// Those of a port, linked or not.
fn port_bits(
    alloc: Global,
    nets: &Declarations<'_>,
    instance: &Instance,
    links: &LinkTable<'_>,
    port: &BoxPort,
) -> Result<u64, OutOfMemory>
    requires { links.now ≡ instance.now.links }
    ensures { IfOk result (λ bits. bits ≡ counts.parted_at nets.now instance.now port.now) }
{
    match links.find(port.name.as_bytes()) {
        None => Ok(0),
        Some(operand) => linked_bits(alloc, nets, instance, port, operand),
    }
}

// Those of the ports that are cut at an instance.
fn instance_bits(
    alloc: Global,
    nets: &Declarations<'_>,
    instance: &Instance,
    ports: &[BoxPort],
) -> Result<u64, OutOfMemory>
    ensures { IfOk result (λ bits. bits ≡ counted (sum_by (counts.parted_at nets.now instance.now) ports.now)) }
{
    let links = LinkTable::of(alloc, instance.links.as_slice())?;
    let mut bits: u64 = 0;
    for port in ports {
        bits = bits.saturating_add(port_bits(alloc, nets, instance, &links, port)?);
    }
    Ok(bits)
}

fn item_bits(
    alloc: Global,
    table: &BoxTable<'_>,
    nets: &Declarations<'_>,
    item: &Item,
) -> Result<u64, OutOfMemory>
    ensures { IfOk result (λ bits. bits ≡ counted (counts.parted_bits table.now nets.now item.now)) }
{
    match item {
        Item::Instance(instance) => match table.ports_of(instance) {
            Some(ports) => instance_bits(alloc, nets, instance, ports.as_slice()),
            None => Ok(0),
        },
        Item::Gate(_) | Item::Assign { .. } => Ok(0),
    }
}

fn added_bits(
    alloc: Global,
    table: &BoxTable<'_>,
    nets: &Declarations<'_>,
    items: &[Item],
) -> Result<u64, OutOfMemory>
    ensures { IfOk result (λ bits. bits ≡ counted (sum_by (counts.parted_bits table.now nets.now) items.now)) }
{
    let mut bits: u64 = 0;
    for item in items {
        bits = bits.saturating_add(item_bits(alloc, table, nets, item)?);
    }
    Ok(bits)
}

/// The first limit that the opened module passes; of port bits its own are counted.
pub fn find_opened_excess(
    alloc: Global,
    table: &BoxTable<'_>,
    tree: &Module,
) -> Result<Option<LinkFault>, OutOfMemory>
    ensures { IfOk result (λ fault. fault ≡ counts.opened_excess table.now tree.now) }
{
    let nets = Declarations::of(alloc, tree)?;
    let added = added_bits(alloc, table, &nets, tree.items.as_slice())?;
    let fault = find_excess(tree, added);
    Ok(fault)
}
