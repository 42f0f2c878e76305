// The test access port, and the nets between the core and its cells.

ghost use Rattle.std.specs.Prelude.{◌≡◌, ◌≢◌, ◌-◌, ◌<◌, ◌≤◌, length};
ghost use Rattle.netlist_model.specs.declared.Dir.{Dir as Direction};
ghost use Rattle.netlist_model.specs.declared.NetId.{NetId as NetNumber};
ghost use Rattle.netlist_arena.specs.Adds.{CanBePin, with_port};
ghost use Rattle.gate_parts.specs.Parts.{added_nets};
ghost use Rattle.core_sides.specs.stitched_netlist.Stitched.{scalar, tap_port, tap_ports, tap_net_views, with_nets};
ghost use Rattle.test_logic_parts.specs.Ports.{with_ports, CanBePort};

use core_sides::lower_stitched_netlist::{TapNames, TapPort};
use netlist_arena::Netlist;
use netlist_model::{Dir, Name, NetId};

/// Adds the nets of the test access port.
pub fn add_port_nets(netlist: &mut Netlist, names: &TapNames) -> TapPort
    requires { 5 ≤ netlist.old.spare.nets }
    ensures port { result ≡ tap_port (length netlist.old.lists.nets) }
    ensures lists { netlist.new.lists ≡ with_nets (tap_net_views names.now) netlist.old.lists }
    ensures spare { netlist.new.spare ≡ record netlist.old.spare { nets = netlist.old.spare.nets - 5 } }
{
    let tck = netlist.add_net(names.tck, None);
    let tms = netlist.add_net(names.tms, None);
    let tdi = netlist.add_net(names.tdi, None);
    let tdo = netlist.add_net(names.tdo, None);
    let trst = netlist.add_net(names.trst, None);
    TapPort {
        tck,
        tms,
        tdi,
        tdo,
        trst,
    }
}

/// Adds so many nets between the core and its cells, and answers the first.
pub fn add_sides(netlist: &mut Netlist, count: u32) -> NetId
    requires room { count ≤ netlist.old.spare.nets }
    ensures first { result.0 ≡ length netlist.old.lists.nets }
    ensures lists { netlist.new.lists ≡ with_nets
        (added_nets (length netlist.old.lists.nets) count) netlist.old.lists }
    ensures spare { netlist.new.spare ≡ record netlist.old.spare
        { nets = netlist.old.spare.nets - count } }
{
    let first = netlist.net_count();
    for _ in 0..count {
        let name = Name::Added(netlist.net_count());
        let _net = netlist.add_net(name, None);
    }
    NetId(first)
}

// Adds a scalar port on a net. Other nets that can have a pin still can.
fn add_scalar(netlist: &mut Netlist, name: Name, dir: Dir, net: NetId)
    requires room { 0 < netlist.old.spare.port_bits }
    requires net { CanBePin netlist.old.lists dir net }
    ensures lists { netlist.new.lists ≡ with_port (scalar name dir net) netlist.old.lists }
    ensures spare { netlist.new.spare ≡ record netlist.old.spare
        { port_bits = netlist.old.spare.port_bits - 1 } }
    ensures others { (side : Direction) (other : NetNumber) → other.0 ≢ net.0
        → CanBePin netlist.old.lists side other
        → CanBePin netlist.new.lists side other }
{
    let _port = netlist.add_port_bit(name, dir, net);
}

/// Adds the ports of the test access port, on these nets.
pub fn add_ports(netlist: &mut Netlist, names: &TapNames, port: &TapPort)
    requires room { 5 ≤ netlist.old.spare.port_bits }
    requires port { CanBePort netlist.old.lists port.now }
    ensures lists { netlist.new.lists ≡ with_ports (tap_ports names.now port.now) netlist.old.lists }
    ensures spare { netlist.new.spare ≡ record netlist.old.spare
        { port_bits = netlist.old.spare.port_bits - 5 } }
{
    add_scalar(netlist, names.tck, Dir::Input, port.tck);
    add_scalar(netlist, names.tms, Dir::Input, port.tms);
    add_scalar(netlist, names.tdi, Dir::Input, port.tdi);
    add_scalar(netlist, names.tdo, Dir::Output, port.tdo);
    add_scalar(netlist, names.trst, Dir::Input, port.trst);
}
