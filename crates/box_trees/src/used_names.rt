// The names that stand in a module.
ghost use Rattle.std.specs.Prelude.{◌≡◌, ◌++◌, ◌∷◌, [], IfOk, OnOk};
ghost use Rattle.std.specs.List.{filter_map};
ghost use Rattle.texts.specs.Repeated.{bytes_of, texts};
ghost use Rattle.link_model.specs.Faults as linked;
ghost use Rattle.box_model.specs.Faults.{used_names};
ghost use Rattle.box_tables.specs.Nets.{port_names, wire_names};

use crate::named::add_items;
use box_tables::NamePlaces;
use std::alloc::Global;
use texts::OutOfMemory;
use verilog_tree::{Gate, Item, Module, Port, Wire};

fn gate_name(gate: &Gate) -> Option<&[u8]>
    ensures { bytes_of result ≡ gate.now.name }
{
    match &gate.name {
        Some(name) => Some(name.as_bytes()),
        None => None,
    }
}

fn name_of(item: &Item) -> Option<&[u8]>
    ensures { bytes_of result ≡ linked.item_name item.now }
{
    match item {
        Item::Gate(gate) => gate_name(gate),
        Item::Instance(instance) => Some(instance.name.as_bytes()),
        Item::Assign { .. } => None,
    }
}

fn add_ports<'a>(names: &mut Vec<&'a [u8]>, ports: &'a [Port]) -> Result<(), OutOfMemory>
    ensures { OnOk result (texts names.new.items ≡ texts names.old.items ++ port_names ports.now) }
{
    for port in ports {
        names.push(port.name.as_bytes())?;
    }
    Ok(())
}

fn add_wires<'a>(names: &mut Vec<&'a [u8]>, wires: &'a [Wire]) -> Result<(), OutOfMemory>
    ensures { OnOk result (texts names.new.items ≡ texts names.old.items ++ wire_names wires.now) }
{
    for wire in wires {
        names.push(wire.name.as_bytes())?;
    }
    Ok(())
}

fn add_name<'a>(names: &mut Vec<&'a [u8]>, item: &'a Item) -> Result<(), OutOfMemory>
    ensures { OnOk result (texts names.new.items
        ≡ texts names.old.items ++ filter_map linked.item_name (item.now ∷ [])) }
{
    match name_of(item) {
        None => {}
        Some(name) => names.push(name)?,
    }
    Ok(())
}

fn add_names<'a>(names: &mut Vec<&'a [u8]>, items: &'a [Item]) -> Result<(), OutOfMemory>
    ensures { OnOk result (texts names.new.items
        ≡ texts names.old.items ++ filter_map linked.item_name items.now) }
{
    for item in items {
        add_name(names, item)?;
    }
    Ok(())
}

/// The names of ports, wires, gates and instances, and those that items name as operand, output or link.
pub(crate) fn used_places<'a>(
    alloc: Global,
    tree: &'a Module,
) -> Result<NamePlaces<'a>, OutOfMemory>
    ensures { IfOk result (λ places. places ≡ used_names tree.now) }
{
    let mut names = Vec::new(alloc);
    add_ports(&mut names, tree.ports.as_slice())?;
    add_wires(&mut names, tree.wires.as_slice())?;
    add_names(&mut names, tree.items.as_slice())?;
    add_items(&mut names, tree.items.as_slice())?;
    let places = NamePlaces::of(alloc, names)?;
    Ok(places)
}
