// The opened module, of what was made of its items.
ghost use Rattle.std.specs.Prelude.{◌≡◌, ◌+◌, ◌-◌, ◌≤◌, ◌++◌, ◌∷◌, [], not, min, take, drop, filter, length, replicate, IfOk, OnOk};
ghost use Rattle.std.specs.List.{flat_map};
ghost use Rattle.texts.specs.Repeated.{has_name};
ghost use Rattle.box_model.specs.Opened as opened;
ghost use Rattle.box_tables.specs.Nets.{emptied};
ghost use Rattle.box_trees.specs.Opening.{joined_names};

use crate::item_opening::{Made, push_item};
use box_tables::{BoxTable, Declarations, NamePlaces};
use std::alloc::Global;
use texts::{OutOfMemory, Row, Text};
use verilog_tree::{Item, Module, Port, Wire};

/// A module with its boxes opened, how many ports stand before its hidden ones, how many of these there are, and of each
/// of its items the number of the item that it comes from.
#[derive(Drop)]
pub struct Opened {
    pub tree: Module,
    pub first: usize,
    pub hidden: usize,
    pub origins: Vec<usize>,
}

// What is made of items, and their origins.
#[derive(Drop)]
struct Gathered {
    made: Made,
    origins: Vec<usize>,
}

// The items from where the origins end come from this one.
fn fill_origins(origins: &mut Vec<usize>, count: usize, number: usize) -> Result<(), OutOfMemory>
    requires { length origins.old.items ≤ count }
    ensures { OnOk result (origins.new.items
        ≡ origins.old.items ++ replicate (count - length origins.old.items) number) }
{
    origins.resize(count, number)?;
    Ok(())
}

// What is made of these items, in a module with these ports and wires.
fn gather(
    alloc: Global,
    table: &BoxTable<'_>,
    tree: &Module,
    items: Row<Item>,
) -> Result<Gathered, OutOfMemory>
    ensures items { IfOk result (λ gathered. gathered.made.items
        ≡ flat_map (opened.opened_item table.now tree.now) items) }
    ensures hidden { IfOk result (λ gathered. gathered.made.hidden
        ≡ flat_map (opened.item_ports table.now) items) }
    ensures joined { IfOk result (λ gathered. gathered.made.joined
        ≡ joined_names table.now tree.now items) }
    ensures origins { IfOk result (λ gathered. gathered.origins.items
        ≡ opened.origins_from table.now tree.now 0 items) }
{
    let nets = Declarations::of(alloc, tree)?;
    let mut made = Made {
        items: Row::new(alloc),
        hidden: Row::new(alloc),
        joined: Row::new(alloc),
    };
    let items = items.into_vec();
    let room = items.len();
    let mut origins = Vec::with_capacity(alloc, room)?;
    let mut number = 0;
    for item in items {
        push_item(alloc, table, &nets, item, &mut made)?;
        let count = made.items.len();
        fill_origins(&mut origins, count, number)?;
        number += 1;
    }
    Ok(Gathered { made, origins })
}

// Puts what stands behind the first so many, of which so many more come last.
fn turn_tail(ports: &mut [Port], first: usize, count: usize)
    requires { first + count ≤ length ports.old }
    ensures { ports.new ≡ take first ports.old ++ (drop count (drop first ports.old) ++ take count (drop first ports.old)) }
{
    let tail = &mut ports[first..];
    tail.rotate_left(count);
}

// The ports with the hidden ones behind the first so many.
#[tactic(auto, using(crate::proofs::Items::turned))]
fn with_hidden(ports: Row<Port>, first: usize, hidden: Row<Port>) -> Result<Row<Port>, OutOfMemory>
    ensures { IfOk result (λ all. all ≡ take first ports ++ (hidden ++ drop first ports)) }
{
    let mut all = ports.into_vec();
    let mut hidden = hidden.into_vec();
    let count = all.len();
    let before = first.min(count);
    all.append(&mut hidden)?;
    turn_tail(all.as_mut_slice(), before, count - before);
    Ok(Row::from(all))
}

fn is_named(names: &NamePlaces<'_>, wire: &Wire) -> bool
    ensures { result ≡ has_name names.now wire.now.name }
{
    names.has(wire.name.as_bytes())
}

// The wires of none of these names.
fn other_wires(alloc: Global, wires: Row<Wire>, joined: &[Text]) -> Result<Row<Wire>, OutOfMemory>
    ensures { IfOk result (λ others. others ≡ filter (λ w. not (has_name joined.now w.name)) wires) }
{
    let names = NamePlaces::of_texts(alloc, joined)?;
    let mut wires = wires.into_vec();
    wires.retain(|wire| !is_named(&names, wire));
    Ok(Row::from(wires))
}

// A module without its items, and these.
fn part_items(alloc: Global, tree: Module) -> (Module, Row<Item>)
    ensures rest { result.0 ≡ emptied tree }
    ensures items { result.1 ≡ tree.items }
{
    let Module {
        name,
        ports,
        wires,
        items,
    } = tree;
    let rest = Module {
        name,
        ports,
        wires,
        items: Row::new(alloc),
    };
    (rest, items)
}

/// A module with its boxes opened: the hidden ports stand behind its first so many.
pub fn open(
    alloc: Global,
    table: &BoxTable<'_>,
    first: usize,
    tree: Module,
) -> Result<Opened, OutOfMemory>
    ensures tree { IfOk result (λ made. made.tree ≡ opened.opened table.now first tree) }
    ensures first { IfOk result (λ made. made.first ≡ min first (length tree.ports)) }
    ensures hidden { IfOk result (λ made. made.hidden ≡ length (opened.hidden_ports table.now tree)) }
    ensures origins { IfOk result (λ made. made.origins.items ≡ opened.origins table.now tree) }
{
    let (rest, items) = part_items(alloc, tree);
    let gathered = gather(alloc, table, &rest, items)?;
    let Gathered { made, origins } = gathered;
    let Made {
        items,
        hidden,
        joined,
    } = made;
    let Module {
        name,
        ports,
        wires,
        items: _,
    } = rest;
    let before = first.min(ports.len());
    let count = hidden.len();
    let ports = with_hidden(ports, first, hidden)?;
    let wires = other_wires(alloc, wires, joined.as_slice())?;
    Ok(Opened {
        tree: Module {
            name,
            ports,
            wires,
            items,
        },
        first: before,
        hidden: count,
        origins,
    })
}
