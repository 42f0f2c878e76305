// The ports of a tree.
ghost use Rattle.std.specs.Prelude.{◌≡◌, ◌<◌, map, length, slice_get, option_map, Some, IfOk};
ghost use Rattle.netlist_unlink.specs.Trees.{dir_of, port_of, range_of};

use netlist_link::Linked;
use netlist_model::PortId;
use std::alloc::Global;
use texts::{OutOfMemory, Row, Text};
use verilog_tree::{Dir, Port, Range};

/// The ports, in order.
pub fn tree_ports(alloc: Global, linked: &Linked) -> Result<Row<Port>, OutOfMemory>
    ensures { IfOk result (λ ports. ports ≡ map (port_of linked.now.names) linked.now.arena.lists.ports) }
{
    let mut ports = Row::new(alloc);
    for number in 0..linked.netlist().port_count() {
        ports.push(tree_port(alloc, linked, PortId(number))?)?;
    }
    Ok(ports)
}

fn tree_port(alloc: Global, linked: &Linked, port: PortId) -> Result<Port, OutOfMemory>
    requires { port.0 < length linked.now.arena.lists.ports }
    ensures { IfOk result (λ made. option_map (port_of linked.now.names)
        (slice_get linked.now.arena.lists.ports port.0) ≡ Some made) }
{
    let netlist = linked.netlist();
    let name = netlist.port_name(port);
    let dir = netlist.port_dir(port);
    let range = netlist.port_range(port);
    let name = Text::from_bytes(alloc, linked.name_text(name))?;
    Ok(Port {
        name,
        dir: tree_dir(dir),
        range: tree_range(range),
    })
}

fn tree_dir(dir: netlist_model::Dir) -> Dir
    ensures { result ≡ dir_of dir }
{
    match dir {
        netlist_model::Dir::Input => Dir::Input,
        netlist_model::Dir::Output => Dir::Output,
        netlist_model::Dir::Inout => Dir::Inout,
    }
}

fn tree_range(range: Option<netlist_model::Range>) -> Option<Range>
    ensures { result ≡ option_map range_of range }
{
    range.map(|range| Range {
        left: range.left,
        right: range.right,
    })
}
