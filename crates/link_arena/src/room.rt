ghost use Rattle.std.specs.Prelude.{◌≡◌, ◌≤◌, ◌<◌, ◌+◌, ◌^◌, length, map, IfOk, None};
ghost use Rattle.link_rules.specs.link_model.Nets.{bits_in, width as width_in, port_nets};
ghost use Rattle.link_rules.specs.link_model.Faults.{text_fault, too_many_in};
ghost use Rattle.link_arena.specs.Room.{HasRoomFor};

use cell_library::Library;
use netlist_arena::{Netlist, ReserveFault};
use std::alloc::Global;
use texts::OutOfMemory;
use verilog_tree::{Module, Port, Range};

/// An empty netlist with room for the module's.
pub fn netlist_with_room(
    alloc: Global,
    library: Library,
    tree: &Module,
    nets: usize,
    cells: usize,
) -> Result<Netlist, OutOfMemory>
    requires cells { cells ≤ 262144 }
    requires nets { nets ≤ 524288 }
    requires ports { bits_in (map port_nets tree.now.ports) ≤ 4096 }
    ensures { IfOk result (λ netlist. HasRoomFor library netlist cells nets
        (bits_in (map port_nets tree.now.ports))) }
{
    let mut netlist = Netlist::new(alloc, library);
    match netlist.reserve(cells as u32, nets as u32, port_bits(tree.ports.as_slice())) {
        Ok(()) => Ok(netlist),
        Err(ReserveFault::OutOfMemory) => Err(OutOfMemory),
        Err(
            ReserveFault::TooMany {
                what: _,
                count: _,
                limit: _,
            },
        ) => unreachable!(),
    }
}

// How many bits the ports have.
fn port_bits(ports: &[Port]) -> u32
    requires { bits_in (map port_nets ports.now) ≤ 4096 }
    ensures { result ≡ bits_in (map port_nets ports.now) }
{
    let mut bits = 0;
    for port in ports {
        bits += width(port.range);
    }
    bits
}

/// How many bits a port has.
pub fn width(range: Option<Range>) -> u32
    requires { width_in range ≤ 4096 }
    ensures { result ≡ width_in range }
{
    match range {
        None => 1,
        Some(range) => range.left.abs_diff(range.right) + 1,
    }
}
