// The table of the nets of input and inout bits.
ghost use Rattle.std.specs.Prelude.{◌≡◌, ◌+◌, ◌<◌, true, length, IfOk};
ghost use Rattle.netlist_model.specs.Settled.{follows_pin};
ghost use Rattle.scan_vectors.specs.Pins.{side_at};
ghost use Rattle.scan_vectors.specs.Starts.{AreMarked, IsPortBefore};

use netlist_link::Linked;
use netlist_model::{Dir, PinBit, PortId, width_of};
use std::alloc::Global;
use texts::OutOfMemory;

/// Of each net, whether it is that of an input or inout bit.
pub fn taken_nets(alloc: Global, linked: &Linked) -> Result<Vec<bool>, OutOfMemory>
    ensures { IfOk result (λ flags. AreMarked linked.now.arena.lists
        (IsPortBefore (length linked.now.arena.lists.ports)) flags.items) }
{
    let netlist = linked.netlist();
    let mut flags: Vec<bool> = vec![in alloc; false; netlist.net_count() as usize]?;
    let count = netlist.port_count();
    for number in 0..count {
        mark_port(flags.as_mut_slice(), linked, PortId(number));
    }
    Ok(flags)
}

// Marks the nets of a port, where it is no output.
fn mark_port(flags: &mut [bool], linked: &Linked, port: PortId)
    requires there { port.0 < length linked.now.arena.lists.ports }
    requires before { AreMarked linked.now.arena.lists (IsPortBefore port.0) flags.old }
    ensures { AreMarked linked.now.arena.lists (IsPortBefore (port.0 + 1)) flags.new }
{
    match linked.netlist().port_dir(port) {
        Dir::Output => {}
        Dir::Input | Dir::Inout => mark_bits(flags, linked, port),
    }
}

// Marks the nets of a port's bits.
fn mark_bits(flags: &mut [bool], linked: &Linked, port: PortId)
    requires there { port.0 < length linked.now.arena.lists.ports }
    requires side { follows_pin (side_at linked.now.arena.lists port.0) ≡ true }
    requires before { AreMarked linked.now.arena.lists (IsPortBefore port.0) flags.old }
    ensures { AreMarked linked.now.arena.lists (IsPortBefore (port.0 + 1)) flags.new }
{
    let netlist = linked.netlist();
    netlist.is_laid_out();
    let width = width_of(netlist.port_range(port));
    for bit in 0..width {
        let pin = PinBit {
            port,
            bit: bit as u32,
        };
        let net = netlist.pin_net(pin);
        flags[net.0 as usize] = true;
    }
}
