// What is counted of a module by itself: its items, its bits, and the modules that it holds.
ghost use Rattle.std.specs.Prelude.{◌≡◌, ◌+◌, ◌++◌, map, IfOk};
ghost use Rattle.std.specs.List.{filter_map};
ghost use Rattle.link_model.specs.Nets.{declared_nets, port_nets, wire_nets, bits_in};
ghost use Rattle.hier_model.specs.Faults.{net_limit};
ghost use Rattle.hier_counts.specs.Widths.{capped};
ghost use Rattle.hier_counts.specs.Levels as levels;

use crate::children::child_place;
use crate::widths::{NET_LIMIT, PortWidths, capped_sum, width_of};
use hier_model::walk::ModuleTable;
use std::alloc::Global;
use texts::{OutOfMemory, Row};
use verilog_tree::{Item, Module, Port, Wire};

/// An instance of a module: the module's place, and how many bits the links join, up to the limit of cells and one.
#[derive(Clone, Copy, Drop)]
pub struct Held {
    pub place: usize,
    pub joined: u64,
}

/// A module by itself: how many items it has, how many bits, up to the limit of nets and one, and the
/// modules that it holds.
#[derive(Drop)]
pub struct Size {
    pub items: usize,
    pub bits: u64,
    pub held: Row<Held>,
}

fn port_sum(ports: &[Port]) -> u64
    ensures { result ≡ capped net_limit (bits_in (map port_nets ports.now)) }
{
    let mut sum = 0;
    for port in ports {
        sum = capped_sum(sum, width_of(port.range), NET_LIMIT);
    }
    sum
}

fn wire_sum(wires: &[Wire]) -> u64
    ensures { result ≡ capped net_limit (bits_in (map wire_nets wires.now)) }
{
    let mut sum = 0;
    for wire in wires {
        sum = capped_sum(sum, width_of(wire.range), NET_LIMIT);
    }
    sum
}

fn own_bits(module: &Module) -> u64
    ensures { result ≡ capped net_limit (bits_in (declared_nets module.now)) }
{
    capped_sum(
        port_sum(module.ports.as_slice()),
        wire_sum(module.wires.as_slice()),
        NET_LIMIT,
    )
}

// What an item holds, by the widths of each module's ports.
fn held_by(
    alloc: Global,
    table: &ModuleTable,
    widths: &[PortWidths],
    item: &Item,
) -> Result<Option<Held>, OutOfMemory>
    requires { widths.now ≡ map (λ m. m.ports) table.now }
    ensures { IfOk result (λ held. held ≡ levels.held_by table.now item.now) }
{
    let Item::Instance(instance) = item else {
        return Ok(None);
    };
    let Some(place) = table.place(instance.cell.as_bytes()) else {
        return Ok(None);
    };
    let joined = widths[place].joined(alloc, instance.links.as_slice())?;
    Ok(Some(Held { place, joined }))
}

fn held_in(
    alloc: Global,
    table: &ModuleTable,
    widths: &[PortWidths],
    items: &[Item],
) -> Result<Row<Held>, OutOfMemory>
    requires { widths.now ≡ map (λ m. m.ports) table.now }
    ensures { IfOk result (λ held. held ≡ filter_map (levels.held_by table.now) items.now) }
{
    let mut held = Row::new(alloc);
    for item in items {
        if let Some(one) = held_by(alloc, table, widths, item)? {
            held.push(one)?;
        }
    }
    Ok(held)
}

fn widths_of<'a>(alloc: Global, modules: &'a [Module]) -> Result<Vec<PortWidths<'a>>, OutOfMemory>
    ensures { IfOk result (λ widths. widths.items ≡ map (λ m. m.ports) modules.now) }
{
    let mut widths = Vec::new(alloc);
    for module in modules {
        widths.push(PortWidths::of(alloc, module.ports.as_slice())?)?;
    }
    Ok(widths)
}

/// The size of each module of a table.
pub fn sizes_of(alloc: Global, table: &ModuleTable) -> Result<Vec<Size>, OutOfMemory>
    ensures { IfOk result (λ sizes. sizes.items ≡ map (levels.size_of table.now) table.now) }
{
    let widths = widths_of(alloc, table.as_slice())?;
    let mut sizes = Vec::new(alloc);
    for module in table.as_slice() {
        let held = held_in(alloc, table, &widths, module.items.as_slice())?;
        sizes.push(Size {
            items: module.items.len(),
            bits: own_bits(module),
            held,
        })?;
    }
    Ok(sizes)
}
