// A module with its boxes opened: hidden ports behind its first ones, and an assign for each linked bit.
ghost use Rattle.std.specs.Prelude.{◌≡◌, ◌++◌, ◌∷◌, [], IfOk, OnOk};
ghost use Rattle.std.specs.List.{flat_map, filter_map};
ghost use Rattle.box_model.specs.Ports as model;
ghost use Rattle.box_model.specs.Opened as opened;
ghost use Rattle.box_trees.specs.Opening as opening;

use crate::assigns::push_assigns;
use box_model::BoxPort;
use box_tables::{
    BoxTable, Declarations, LinkTable, PortTable, copy_of_link, hidden_name, hidden_port,
};
use std::alloc::Global;
use texts::{OutOfMemory, Row, Text};
use verilog_tree::{Instance, Item, Link, Operand, Port};

/// What is made of the items of a module: the items, the hidden ports, and the names of wires that join ports.
#[derive(Drop)]
pub(crate) struct Made {
    pub(crate) items: Row<Item>,
    pub(crate) hidden: Row<Port>,
    pub(crate) joined: Row<Text>,
}

// Adds the assigns of a linked port with this hidden name, or the name, where it is joined.
fn push_link(
    alloc: Global,
    nets: &Declarations<'_>,
    hidden: &[u8],
    port: &BoxPort,
    operand: &Operand,
    made: &mut Made,
) -> Result<(), OutOfMemory>
    ensures items { OnOk result (made.new.items ≡ made.old.items ++ opening.items_as nets.now hidden.now port.now operand.now) }
    ensures hidden { OnOk result (made.new.hidden ≡ made.old.hidden) }
    ensures joined { OnOk result (made.new.joined ≡ made.old.joined ++ opening.joined_as nets.now hidden.now port.now operand.now) }
{
    if nets.joins(hidden, port.range, operand) {
        made.joined.push(Text::from_bytes(alloc, hidden)?)
    } else {
        push_assigns(alloc, nets, hidden, port, operand, &mut made.items)
    }
}

// Adds what comes of a linked port.
fn push_port(
    alloc: Global,
    nets: &Declarations<'_>,
    instance: &Instance,
    port: &BoxPort,
    operand: &Operand,
    made: &mut Made,
) -> Result<(), OutOfMemory>
    ensures items { OnOk result (made.new.items ≡ made.old.items ++ opening.linked_items nets.now instance.now port.now operand.now) }
    ensures hidden { OnOk result (made.new.hidden ≡ made.old.hidden ++ model.hidden_port instance.now port.now ∷ []) }
    ensures joined { OnOk result (made.new.joined ≡ made.old.joined ++ opening.linked_joined nets.now instance.now port.now operand.now) }
{
    let hidden = hidden_name(alloc, instance.name.as_bytes(), port.name.as_bytes())?;
    push_link(alloc, nets, hidden.as_bytes(), port, operand, made)?;
    made.hidden.push(hidden_port(alloc, instance, port)?)
}

// Adds what comes of a port, linked or not.
fn push_cut(
    alloc: Global,
    nets: &Declarations<'_>,
    instance: &Instance,
    links: &LinkTable<'_>,
    port: &BoxPort,
    made: &mut Made,
) -> Result<(), OutOfMemory>
    requires { links.now ≡ instance.now.links }
    ensures items { OnOk result (made.new.items ≡ made.old.items ++ opened.port_items nets.now instance.now port.now) }
    ensures hidden { OnOk result (made.new.hidden ≡ made.old.hidden ++ filter_map (opened.hidden_at instance.now) (port.now ∷ [])) }
    ensures joined { OnOk result (made.new.joined ≡ made.old.joined ++ opening.port_joined nets.now instance.now port.now) }
{
    match links.find(port.name.as_bytes()) {
        None => Ok(()),
        Some(operand) => push_port(alloc, nets, instance, port, operand, made),
    }
}

// Adds what comes of the ports that are cut at an instance.
fn push_ports(
    alloc: Global,
    nets: &Declarations<'_>,
    instance: &Instance,
    ports: &[BoxPort],
    made: &mut Made,
) -> Result<(), OutOfMemory>
    ensures items { OnOk result (made.new.items ≡ made.old.items ++ flat_map (opened.port_items nets.now instance.now) ports.now) }
    ensures hidden { OnOk result (made.new.hidden ≡ made.old.hidden ++ filter_map (opened.hidden_at instance.now) ports.now) }
    ensures joined { OnOk result (made.new.joined ≡ made.old.joined ++ flat_map (opening.port_joined nets.now instance.now) ports.now) }
{
    let links = LinkTable::of(alloc, instance.links.as_slice())?;
    for port in ports {
        push_cut(alloc, nets, instance, &links, port, made)?;
    }
    Ok(())
}

fn push_other(
    alloc: Global,
    ports: &PortTable<'_>,
    link: &Link,
    links: &mut Row<Link>,
) -> Result<(), OutOfMemory>
    ensures { OnOk result (links.new ≡ links.old ++ model.other_links ports.now (link.now ∷ [])) }
{
    if !ports.has(link.port.as_bytes()) {
        links.push(copy_of_link(alloc, link)?)?;
    }
    Ok(())
}

// The links that aren't cut.
fn other_links(
    alloc: Global,
    ports: &PortTable<'_>,
    links: &[Link],
) -> Result<Row<Link>, OutOfMemory>
    ensures { IfOk result (λ others. others ≡ model.other_links ports.now links.now) }
{
    let mut others = Row::new(alloc);
    for link in links {
        push_other(alloc, ports, link, &mut others)?;
    }
    Ok(others)
}

// An instance without the links that are cut.
fn bare_instance(
    alloc: Global,
    ports: &PortTable<'_>,
    instance: &Instance,
) -> Result<Instance, OutOfMemory>
    ensures { IfOk result (λ bare. bare ≡ opening.bare_instance ports.now instance.now) }
{
    Ok(Instance {
        cell: Text::from_bytes(alloc, instance.cell.as_bytes())?,
        name: Text::from_bytes(alloc, instance.name.as_bytes())?,
        links: other_links(alloc, ports, instance.links.as_slice())?,
    })
}

// Adds what comes of an instance with these cut ports.
fn push_instance(
    alloc: Global,
    nets: &Declarations<'_>,
    ports: &PortTable<'_>,
    instance: &Instance,
    made: &mut Made,
) -> Result<(), OutOfMemory>
    ensures items { OnOk result (made.new.items ≡ made.old.items ++ opened.opened_instance nets.now instance.now ports.now) }
    ensures hidden { OnOk result (made.new.hidden ≡ made.old.hidden ++ filter_map (opened.hidden_at instance.now) ports.now) }
    ensures joined { OnOk result (made.new.joined ≡ made.old.joined ++ flat_map (opening.port_joined nets.now instance.now) ports.now) }
{
    made.items
        .push(Item::Instance(bare_instance(alloc, ports, instance)?))?;
    push_ports(alloc, nets, instance, ports.as_slice(), made)
}

// Adds what comes of an instance.
fn push_cell(
    alloc: Global,
    table: &BoxTable<'_>,
    nets: &Declarations<'_>,
    instance: Instance,
    made: &mut Made,
) -> Result<(), OutOfMemory>
    ensures items { OnOk result (made.new.items ≡ made.old.items ++ opened.opened_item table.now nets.now (Item.Instance instance)) }
    ensures hidden { OnOk result (made.new.hidden ≡ made.old.hidden ++ opened.item_ports table.now (Item.Instance instance)) }
    ensures joined { OnOk result (made.new.joined ≡ made.old.joined ++ opening.item_joined table.now nets.now (Item.Instance instance)) }
{
    match table.ports_of(&instance) {
        Some(ports) => push_instance(alloc, nets, ports, &instance, made),
        None => made.items.push(Item::Instance(instance)),
    }
}

/// Adds what comes of an item.
pub(crate) fn push_item(
    alloc: Global,
    table: &BoxTable<'_>,
    nets: &Declarations<'_>,
    item: Item,
    made: &mut Made,
) -> Result<(), OutOfMemory>
    ensures items { OnOk result (made.new.items ≡ made.old.items ++ opened.opened_item table.now nets.now item) }
    ensures hidden { OnOk result (made.new.hidden ≡ made.old.hidden ++ opened.item_ports table.now item) }
    ensures joined { OnOk result (made.new.joined ≡ made.old.joined ++ opening.item_joined table.now nets.now item) }
{
    match item {
        Item::Instance(instance) => push_cell(alloc, table, nets, instance, made),
        Item::Gate(gate) => made.items.push(Item::Gate(gate)),
        Item::Assign { output, input } => made.items.push(Item::Assign { output, input }),
    }
}
