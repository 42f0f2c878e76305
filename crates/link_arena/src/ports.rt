ghost use Rattle.std.specs.Prelude.{◌≡◌, ◌≤◌, ◌<◌, ◌^◌, [], map, length, IfOk, OnOk, option_map};
ghost use Rattle.link_rules.specs.link_model.Nets.{bits_in, port_nets, counted_from, dir_of};
ghost use Rattle.link_rules.specs.link_model.Denoted.{IsPort, AreAll, net_id, ports_from, range_of};
ghost use Rattle.link_arena.specs.Named.{ArePortsEntered};

use crate::name_table::NameTable;
use crate::names::original;
use crate::room::width;
use netlist_arena::Netlist;
use netlist_model::{Dir, NetId, Range};
use std::alloc::Global;
use texts::OutOfMemory;
use verilog_tree::Port;

/// Adds the ports, in order; their bits are the first nets.
pub fn add_ports(
    alloc: Global,
    netlist: &mut Netlist,
    names: &NameTable,
    ports: &[Port],
) -> Result<(), OutOfMemory>
    requires few { bits_in (map port_nets ports.now) ≤ 4096 }
    requires room { bits_in (map port_nets ports.now) ≤ netlist.old.spare.port_bits }
    requires nets { bits_in (map port_nets ports.now) ≤ length netlist.old.lists.nets }
    requires none { netlist.old.lists.ports ≡ [] }
    requires no_cells { netlist.old.lists.cells ≡ [] }
    requires names { ArePortsEntered names.now ports.now }
    ensures ports { OnOk result (AreAll (IsPort names.now) netlist.new.lists.ports
        (ports_from 0 ports.now)) }
    ensures library { OnOk result (netlist.new.lists.library ≡ netlist.old.lists.library) }
    ensures nets { OnOk result (netlist.new.lists.nets ≡ netlist.old.lists.nets) }
    ensures cells { OnOk result (netlist.new.lists.cells ≡ netlist.old.lists.cells) }
    ensures spare { OnOk result (netlist.new.spare.cells ≡ netlist.old.spare.cells) }
{
    let mut first = 0;
    let mut hint = 0;
    for port in ports {
        let count = width(port.range);
        let bits = net_ids(alloc, first, count)?;
        let _id = netlist.add_port(
            original(names, port.name.as_bytes(), &mut hint),
            direction_of(port.dir),
            range(port.range),
            &bits,
        )?;
        first += count;
    }
    Ok(())
}

// So many nets, from this one on.
fn net_ids(alloc: Global, first: u32, count: u32) -> Result<Vec<NetId>, OutOfMemory>
    requires first { first ≤ 4096 }
    requires few { count ≤ 4096 }
    ensures { IfOk result (λ nets. nets.items ≡ map net_id (counted_from first count)) }
{
    let mut nets = Vec::with_capacity(alloc, count as usize)?;
    for place in 0..count {
        nets.push(NetId(first + place))?;
    }
    Ok(nets)
}

fn direction_of(dir: verilog_tree::Dir) -> Dir
    ensures { result ≡ dir_of dir }
{
    match dir {
        verilog_tree::Dir::Input => Dir::Input,
        verilog_tree::Dir::Output => Dir::Output,
        verilog_tree::Dir::Inout => Dir::Inout,
    }
}

fn range(range: Option<verilog_tree::Range>) -> Option<Range>
    ensures { result ≡ option_map range_of range }
{
    range.map(|r| Range {
        left: r.left,
        right: r.right,
    })
}
