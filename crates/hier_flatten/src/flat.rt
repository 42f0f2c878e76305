// The flat module: its ports, wires and items.
ghost use Rattle.std.specs.Prelude.{◌≡◌, ◌++◌, [], map, take, IfOk, OnOk, IsTrue};
ghost use Rattle.std.specs.List.{flat_map};
ghost use Rattle.verilog_tree.specs.declared.tree.Port.{Port as PortTree};
ghost use Rattle.verilog_tree.specs.declared.tree.Wire.{Wire as WireTree};
ghost use Rattle.hier_model.specs.Visits.{has_levels};
ghost use Rattle.hier_model.specs.Walks.{texts, turn_of, path_after};
ghost use Rattle.hier_model.specs.Names as names;
ghost use Rattle.hier_model.specs.Entries.{level_limit, opened_places, turn_places, entries, turn_entries, entry_item};
ghost use Rattle.hier_model.specs.Flat as model;
ghost use Rattle.hier_flatten.specs.Visited.{IsListed};

use crate::copies::flat_item;
use crate::joins::{Sides, push_inputs, push_outputs};
use crate::names::flat_name;
use crate::nets::NetTables;
use hier_model::walk::{Step, Turn, Walk};
use std::alloc::Global;
use texts::{OutOfMemory, Row, Text};
use verilog_tree::{Item, Module, Port, Wire};

fn push_ports(
    alloc: Global,
    at: &[&[u8]],
    ports: &[Port],
    wires: &mut Row<Wire>,
) -> Result<(), OutOfMemory>
    ensures { OnOk result (wires.new ≡ wires.old ++ map (λ (port : PortTree). record {
      name = names.flat_name (texts at.now) port.name;
      range = port.range;
    }) ports.now) }
{
    for port in ports {
        let name = flat_name(alloc, at, port.name.as_bytes())?;
        wires.push(Wire {
            name,
            range: port.range,
        })?;
    }
    Ok(())
}

fn push_wires(
    alloc: Global,
    at: &[&[u8]],
    own: &[Wire],
    wires: &mut Row<Wire>,
) -> Result<(), OutOfMemory>
    ensures { OnOk result (wires.new ≡ wires.old ++ map (λ (wire : WireTree). record {
      name = names.flat_name (texts at.now) wire.name;
      range = wire.range;
    }) own.now) }
{
    for wire in own {
        let name = flat_name(alloc, at, wire.name.as_bytes())?;
        wires.push(Wire {
            name,
            range: wire.range,
        })?;
    }
    Ok(())
}

// Adds the wires of what a step opens; `path` goes down to where the walk stands.
fn push_opened(
    alloc: Global,
    path: &[&[u8]],
    step: Step,
    wires: &mut Row<Wire>,
) -> Result<(), OutOfMemory>
    requires { texts path.now ≡ path_after (take step.depth (texts path.now)) (turn_of step.turn) }
    ensures { OnOk result (wires.new ≡ wires.old ++ flat_map model.place_wires (turn_places (take step.entry.depth
        (texts path.now)) (turn_of step.entry.turn))) }
{
    match step.turn {
        Turn::Keeps(_) | Turn::Closes(_, _) => Ok(()),
        Turn::Opens(_, child) => {
            push_ports(alloc, path, child.ports.as_slice(), wires)?;
            push_wires(alloc, path, child.wires.as_slice(), wires)
        }
    }
}

// The wires of the flat module.
fn flat_wires(alloc: Global, tables: &NetTables, top: &Module) -> Result<Row<Wire>, OutOfMemory>
    requires listed { IsListed tables.now top.now }
    requires levels { IsTrue (has_levels level_limit tables.now top.now) }
    ensures { IfOk result (λ wires. wires ≡ top.now.wires ++ flat_map model.place_wires
        (opened_places tables.now top.now)) }
{
    let mut wires = Row::new(alloc);
    push_wires(alloc, &[], top.wires.as_slice(), &mut wires)?;
    let mut walk = Walk::new(alloc, tables.modules(), top)?;
    while let Some(step) = walk.next()? {
        push_opened(alloc, walk.path.as_slice(), step, &mut wires)?;
    }
    Ok(wires)
}

// Adds the items of a step; `path` goes down to where the walk stands.
fn push_step<'a, 'b>(
    alloc: Global,
    tables: &'a NetTables<'b>,
    path: &'a [&'b [u8]],
    step: Step<'b>,
    items: &mut Row<Item>,
) -> Result<(), OutOfMemory>
    requires within { IsListed tables.now step.within.now }
    requires path { texts path.now ≡ path_after (take step.depth (texts path.now)) (turn_of step.turn) }
    ensures { OnOk result (items.new ≡ items.old ++ map entry_item (turn_entries (take step.entry.depth
        (texts path.now)) step.entry.within.now (turn_of step.entry.turn))) }
{
    let Some(nets) = tables.find(step.within) else {
        unreachable!()
    };
    match step.turn {
        Turn::Keeps(item) => items.push(flat_item(alloc, path, item)?),
        Turn::Opens(instance, child) => {
            let sides = Sides {
                outer: &path[..step.depth],
                nets,
                inner: path,
                child,
            };
            push_inputs(alloc, sides, instance, items)
        }
        Turn::Closes(instance, child) => {
            let mut inner = Vec::from_slice(alloc, path)?;
            inner.push(instance.name.as_bytes())?;
            let sides = Sides {
                outer: &*path,
                nets,
                inner: inner.as_slice(),
                child,
            };
            push_outputs(alloc, sides, instance, items)
        }
    }
}

// The items of the flat module.
fn flat_items<'b>(
    alloc: Global,
    tables: &NetTables<'b>,
    top: &'b Module,
) -> Result<Row<Item>, OutOfMemory>
    requires listed { IsListed tables.now top.now }
    requires levels { IsTrue (has_levels level_limit tables.now top.now) }
    ensures { IfOk result (λ items. items ≡ map entry_item (entries tables.now top.now)) }
{
    let mut items = Row::new(alloc);
    let mut walk = Walk::new(alloc, tables.modules(), top)?;
    while let Some(step) = walk.next()? {
        push_step(alloc, &*tables, walk.path.as_slice(), step, &mut items)?;
    }
    Ok(items)
}

fn same_ports(alloc: Global, ports: &[Port]) -> Result<Row<Port>, OutOfMemory>
    ensures { IfOk result (λ same. same ≡ ports.now) }
{
    let mut same = Row::new(alloc);
    for port in ports {
        let name = Text::from_bytes(alloc, port.name.as_bytes())?;
        same.push(Port {
            name,
            dir: port.dir,
            range: port.range,
        })?;
    }
    Ok(same)
}

/// The flat module of a hierarchy.
pub fn flat_module<'b>(
    alloc: Global,
    tables: &NetTables<'b>,
    top: &'b Module,
) -> Result<Module, OutOfMemory>
    requires listed { IsListed tables.now top.now }
    requires levels { IsTrue (has_levels level_limit tables.now top.now) }
    ensures { IfOk result (λ flat. flat ≡ model.flat tables.now top.now) }
{
    Ok(Module {
        name: Text::from_bytes(alloc, top.name.as_bytes())?,
        ports: same_ports(alloc, top.ports.as_slice())?,
        wires: flat_wires(alloc, tables, top)?,
        items: flat_items(alloc, tables, top)?,
    })
}
