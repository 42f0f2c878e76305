// Whether the ports of a netlist are those of a device.
ghost use Rattle.std.specs.Prelude.{◌≡◌, ◌↔◌, ◌<◌, false, length, IsTrue};
ghost use Rattle.std.specs.Option.{option_map};
ghost use Rattle.netlist_link.specs.Linked.{is_straight};
ghost use Rattle.netlist_link.specs.PinWords.{HasPortName};
ghost use Rattle.plan_fitting.specs.Devices.{mode_of_side, port_range};
ghost use Rattle.conformance_report.specs.Agreement.{AreOfDevice, AreOfNetlist, IsOfDevice, IsOfNetlist, IsOwnPort, IsSamePort, PortsAgree};

use bsdl_device::{DevPort, Device, PortMode, PortRange};
use netlist_link::Linked;
use netlist_model::{Dir, PortId, Range};

/// Whether the ports of the netlist, but for hidden ones, are the device's but for linkage, in any order: with the same
/// names, byte for byte, directions and ranges. It takes no memory. Where both have them in one order and none is hidden,
/// each is looked at once.
pub fn ports_agree(linked: &Linked, device: &Device) -> bool
    ensures { IsTrue result ↔ PortsAgree linked.now device.now }
{
    let ports = device.ports.as_slice();
    are_of_device(linked, ports) && are_of_netlist(linked, ports)
}

// Whether each port of the netlist that isn't hidden is one of the device's.
fn are_of_device(linked: &Linked, ports: &[DevPort]) -> bool
    ensures { IsTrue result ↔ AreOfDevice linked.now ports.now }
{
    for number in 0..linked.netlist().port_count() {
        if !is_hidden_or_of_device(linked, ports, PortId(number)) {
            return false;
        }
    }
    true
}

// Whether a port of the netlist is hidden or one of the device's.
fn is_hidden_or_of_device(linked: &Linked, ports: &[DevPort], port: PortId) -> bool
    requires { port.0 < length linked.now.arena.lists.ports }
    ensures { IsTrue result ↔ (is_straight linked.now port.0 ≡ false
        → IsOfDevice linked.now ports.now port.0) }
{
    linked.straight().has(port) || is_of_device(linked, ports, port)
}

// Whether a port of the netlist is one of the device's. It is looked for at its own place first.
fn is_of_device(linked: &Linked, ports: &[DevPort], port: PortId) -> bool
    requires { port.0 < length linked.now.arena.lists.ports }
    ensures { IsTrue result ↔ IsOfDevice linked.now ports.now port.0 }
{
    is_at(linked, ports, port) || is_among(linked, ports, port)
}

// Whether the device has the netlist's port at its own place.
fn is_at(linked: &Linked, ports: &[DevPort], port: PortId) -> bool
    requires { port.0 < length linked.now.arena.lists.ports }
    ensures { IsTrue result → IsOfDevice linked.now ports.now port.0 }
{
    match ports.get(port.0 as usize) {
        Some(other) => is_same(linked, port, other),
        None => false,
    }
}

fn is_among(linked: &Linked, ports: &[DevPort], port: PortId) -> bool
    requires { port.0 < length linked.now.arena.lists.ports }
    ensures { IsTrue result ↔ IsOfDevice linked.now ports.now port.0 }
{
    for other in ports {
        if is_same(linked, port, other) {
            return true;
        }
    }
    false
}

// Whether each port of the device but linkage is one of the netlist's.
fn are_of_netlist(linked: &Linked, ports: &[DevPort]) -> bool
    ensures { IsTrue result ↔ AreOfNetlist linked.now ports.now }
{
    for (place, port) in ports.iter().enumerate() {
        if !is_linkage(port.mode) && !is_of_netlist(linked, place, port) {
            return false;
        }
    }
    true
}

// Whether a port of the device is one of the netlist's. It is looked for at its own place first.
fn is_of_netlist(linked: &Linked, place: usize, port: &DevPort) -> bool
    ensures { IsTrue result ↔ IsOfNetlist linked.now port.now }
{
    let count = linked.netlist().port_count();
    if place < count as usize && is_own(linked, PortId(place as u32), port) {
        return true;
    }
    for number in 0..count {
        if is_own(linked, PortId(number), port) {
            return true;
        }
    }
    false
}

// Whether a port that isn't hidden has the name, the direction and the range of the device's.
fn is_own(linked: &Linked, port: PortId, other: &DevPort) -> bool
    requires { port.0 < length linked.now.arena.lists.ports }
    ensures { IsTrue result ↔ IsOwnPort linked.now port.0 other.now }
{
    !linked.straight().has(port) && is_same(linked, port, other)
}

fn is_linkage(mode: PortMode) -> bool
    ensures { IsTrue result ↔ (mode ≡ PortMode.Linkage) }
{
    match mode {
        PortMode::Linkage => true,
        PortMode::Input | PortMode::Output | PortMode::Inout => false,
    }
}

// Whether the two ports have the same name, direction and range.
fn is_same(linked: &Linked, port: PortId, other: &DevPort) -> bool
    requires { port.0 < length linked.now.arena.lists.ports }
    ensures { IsTrue result ↔ IsSamePort linked.now port.0 other.now }
{
    let netlist = linked.netlist();
    let side = same_side(netlist.port_dir(port), other.mode);
    let range = same_range(netlist.port_range(port), other.range);
    side && range && is_named(linked, port, other.name.as_bytes())
}

// Whether the port has this name.
fn is_named(linked: &Linked, port: PortId, name: &[u8]) -> bool
    requires { port.0 < length linked.now.arena.lists.ports }
    ensures { IsTrue result ↔ HasPortName linked.now.names linked.now.arena.lists port.0 name.now }
{
    linked.name_text(linked.netlist().port_name(port)) == name
}

fn same_side(dir: Dir, mode: PortMode) -> bool
    ensures { IsTrue result ↔ (mode ≡ mode_of_side dir) }
{
    matches!(
        (dir, mode),
        (Dir::Input, PortMode::Input)
            | (Dir::Output, PortMode::Output)
            | (Dir::Inout, PortMode::Inout)
    )
}

fn same_range(range: Option<Range>, other: Option<PortRange>) -> bool
    ensures { IsTrue result ↔ (other ≡ option_map port_range range) }
{
    match (range, other) {
        (None, None) => true,
        (Some(range), Some(other)) => range.left == other.left && range.right == other.right,
        (None, Some(_)) | (Some(_), None) => false,
    }
}
