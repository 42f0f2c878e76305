// The links of a library cell or a listed one.
ghost use Rattle.std.specs.Prelude.{◌≡◌, ◌++◌, ◌<◌, ◌≤◌, length, IfOk, IfSome, OnOk};
ghost use Rattle.cell_library.specs.Library.{operand_ports, output_port as port_of_output};
ghost use Rattle.netlist_model.specs.Lists.{cell_at};
ghost use Rattle.netlist_arena.specs.Looks.{IsLive};
ghost use Rattle.netlist_unlink.specs.Parts.{feeds_of, output_of};
ghost use Rattle.netlist_unlink.specs.Trees.{naming_of, operand_links, output_links};

use crate::names::{bit, operand};
use cell_library::{Kind, operand_port, output_port};
use netlist_link::Linked;
use netlist_model::CellId;
use std::alloc::Global;
use texts::{OutOfMemory, Row, Text};
use verilog_tree::{Link, Operand};

/// The links of a library cell or a listed one in the order of its operands, and then that of its output if
/// it is connected.
pub fn cell_links(
    alloc: Global,
    linked: &Linked,
    prefix: &[u8],
    cell: CellId,
    kind: Kind,
) -> Result<Row<Link>, OutOfMemory>
    requires live { IsLive linked.now.arena.lists cell.0 }
    requires ports { length (feeds_of (cell_at linked.now.arena.lists cell.0)) ≤ length
        (operand_ports linked.now.arena.lists.library kind) }
    ensures { IfOk result (λ links. links ≡ operand_links (naming_of linked.now prefix.now)
        (operand_ports linked.now.arena.lists.library kind) (feeds_of (cell_at linked.now.arena.lists cell.0))
        ++ output_links (naming_of linked.now prefix.now) (port_of_output linked.now.arena.lists.library kind) (output_of (cell_at linked.now.arena.lists cell.0))) }
{
    let mut links = links_to_operands(alloc, linked, prefix, cell, kind)?;
    link_output(alloc, linked, prefix, cell, kind, &mut links)?;
    Ok(links)
}

fn links_to_operands(
    alloc: Global,
    linked: &Linked,
    prefix: &[u8],
    cell: CellId,
    kind: Kind,
) -> Result<Row<Link>, OutOfMemory>
    requires live { IsLive linked.now.arena.lists cell.0 }
    requires ports { length (feeds_of (cell_at linked.now.arena.lists cell.0)) ≤ length
        (operand_ports linked.now.arena.lists.library kind) }
    ensures { IfOk result (λ links. links ≡ operand_links (naming_of linked.now prefix.now)
        (operand_ports linked.now.arena.lists.library kind) (feeds_of (cell_at linked.now.arena.lists cell.0))) }
{
    let netlist = linked.netlist();
    let mut links = Row::new(alloc);
    for place in 0..netlist.feed_count(cell) {
        let feed = netlist.feed(cell, place);
        let port = Text::from_bytes(alloc, operand_port(netlist.library(), kind, place))?;
        let operand = operand(alloc, linked, prefix, feed)?;
        links.push(Link {
            port,
            operand: Some(operand),
        })?;
    }
    Ok(links)
}

fn link_output(
    alloc: Global,
    linked: &Linked,
    prefix: &[u8],
    cell: CellId,
    kind: Kind,
    links: &mut Row<Link>,
) -> Result<(), OutOfMemory>
    requires { IsLive linked.now.arena.lists cell.0 }
    ensures { OnOk result (links.new ≡ links.old
        ++ output_links (naming_of linked.now prefix.now) (port_of_output linked.now.arena.lists.library kind)
        (output_of (cell_at linked.now.arena.lists cell.0))) }
{
    let netlist = linked.netlist();
    let Some(port) = output_port(netlist.library(), kind) else {
        return Ok(());
    };
    let port = Text::from_bytes(alloc, port)?;
    match netlist.output(cell) {
        Some(net) => {
            let driven = bit(alloc, linked, prefix, net)?;
            links.push(Link {
                port,
                operand: Some(Operand::Bit(driven)),
            })
        }
        None => Ok(()),
    }
}
