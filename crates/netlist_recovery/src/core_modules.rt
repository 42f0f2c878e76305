// The module without its test logic.
ghost use Rattle.std.specs.Prelude.{◌≡◌, ◌-◌, IfOk, filter, length, take};
ghost use Rattle.strip_model.specs.Core as model;

use crate::copies::{copy_port, copy_wire};
use crate::core_items::core_items;
use crate::side_table::SideTable;
use plan_fitting::copies::text_copy;
use std::alloc::Global;
use strip_model::Side;
use texts::{OutOfMemory, Row};
use verilog_tree::{Module, Port, Wire};

// How many ports the test access port has.
const TAP_PORTS: usize = 5;

fn copy_ports(alloc: Global, ports: &[Port]) -> Result<Row<Port>, OutOfMemory>
    ensures { IfOk result (λ copies. copies ≡ ports.now) }
{
    let mut copies = Row::new(alloc);
    for port in ports {
        let copy = copy_port(alloc, port)?;
        copies.push(copy)?;
    }
    Ok(copies)
}

// The ports without those of the test access port.
fn core_ports(alloc: Global, ports: &[Port]) -> Result<Row<Port>, OutOfMemory>
    ensures { IfOk result (λ core. core ≡ take (length ports.now - 5) ports.now) }
{
    let count = ports.len().saturating_sub(TAP_PORTS);
    copy_ports(alloc, &ports[..count])
}

// The wires that don't have the prefix.
fn core_wires(alloc: Global, prefix: &[u8], wires: &[Wire]) -> Result<Row<Wire>, OutOfMemory>
    ensures { IfOk result (λ core. core ≡ filter (model.is_own_wire prefix.now) wires.now) }
{
    let mut core = Row::new(alloc);
    for wire in wires {
        if !wire.name.as_bytes().starts_with(prefix) {
            let copy = copy_wire(alloc, wire)?;
            core.push(copy)?;
        }
    }
    Ok(core)
}

/// The module without its test logic, by the prefix of what was added and the nets between the core and
/// its boundary cells.
pub fn core_module(
    alloc: Global,
    prefix: &[u8],
    sides: &[Side],
    tree: &Module,
) -> Result<Module, OutOfMemory>
    ensures { IfOk result (λ core. core ≡ model.core_module prefix.now sides.now tree.now) }
{
    let table = SideTable::of(alloc, sides)?;
    Ok(Module {
        name: text_copy(alloc, &tree.name)?,
        ports: core_ports(alloc, tree.ports.as_slice())?,
        wires: core_wires(alloc, prefix, tree.wires.as_slice())?,
        items: core_items(alloc, prefix, &table, tree.items.as_slice())?,
    })
}
