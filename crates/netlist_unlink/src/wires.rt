// The wires of a tree.
ghost use Rattle.std.specs.Prelude.{◌≡◌, ◌<◌, ◌++◌, map, length, slice_get, option_map, Some, All, IfOk, OnOk};
ghost use Rattle.netlist_model.specs.Lists.{NetView};
ghost use Rattle.netlist_unlink.specs.Rows.{rows as rows_of};
ghost use Rattle.netlist_unlink.specs.Trees.{added_from, added_wire, wire_of};

use crate::names::added_name;
use crate::rows::{NetRow, wire_rows};
use netlist_link::Linked;
use netlist_model::{Name, NetId};
use std::alloc::Global;
use texts::{OutOfMemory, Row, Text};
use verilog_tree::Wire;

/// The original wires in the order of their first nets, and then the added nets.
pub fn tree_wires(alloc: Global, linked: &Linked, prefix: &[u8]) -> Result<Row<Wire>, OutOfMemory>
    ensures { IfOk result (λ wires. wires ≡ map (wire_of linked.now.names)
        (rows_of linked.now.arena.lists.ports linked.now.arena.lists.nets)
        ++ added_from prefix.now 0 linked.now.arena.lists.nets) }
{
    linked.netlist().is_laid_out();
    let rows = wire_rows(alloc, linked)?;
    let mut wires = original_wires(alloc, linked, &rows)?;
    add_wires(alloc, linked, prefix, &mut wires)?;
    Ok(wires)
}

fn original_wires(alloc: Global, linked: &Linked, rows: &[NetRow]) -> Result<Row<Wire>, OutOfMemory>
    requires { All (λ (row : NetRow). row.name < length linked.now.names) rows.now }
    ensures { IfOk result (λ wires. wires ≡ map (wire_of linked.now.names) rows.now) }
{
    let mut wires = Row::new(alloc);
    for row in rows {
        let name = Text::from_bytes(alloc, linked.name_text(Name::Original(row.name)))?;
        wires.push(Wire {
            name,
            range: row.range,
        })?;
    }
    Ok(wires)
}

// Adds a scalar wire for each added net.
fn add_wires(
    alloc: Global,
    linked: &Linked,
    prefix: &[u8],
    wires: &mut Row<Wire>,
) -> Result<(), OutOfMemory>
    ensures { OnOk result (wires.new ≡ wires.old ++ added_from prefix.now 0 linked.now.arena.lists.nets) }
{
    for number in 0..linked.netlist().net_count() {
        add_wire(alloc, linked, prefix, NetId(number), wires)?;
    }
    Ok(())
}

// Adds a wire for a net that was added.
fn add_wire(
    alloc: Global,
    linked: &Linked,
    prefix: &[u8],
    net: NetId,
    wires: &mut Row<Wire>,
) -> Result<(), OutOfMemory>
    requires { net.0 < length linked.now.arena.lists.nets }
    ensures { OnOk result (option_map (λ (view : NetView). wires.old
        ++ added_wire prefix.now net.0 view.name) (slice_get linked.now.arena.lists.nets net.0)
        ≡ Some wires.new) }
{
    match linked.netlist().net_name(net) {
        Name::Original(_) => Ok(()),
        Name::Added(_) => {
            let name = added_name(alloc, prefix, b'n', net.0)?;
            wires.push(Wire { name, range: None })
        }
    }
}
