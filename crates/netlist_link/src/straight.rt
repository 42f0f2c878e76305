// Which ports of a linked netlist are hidden, and what else is marked in it. Linking marks nothing.

ghost use Rattle.std.specs.Prelude.{◌≡◌, ◌+◌, ◌≤◌, drop, length, take};
ghost use Rattle.netlist_arena.specs.Arena.{bit_count};
ghost use Rattle.netlist_link.specs.Linked.{hidden_ports, is_hidden, own_ports};

use crate::linked::Linked;
use netlist_arena::Netlist;
use netlist_model::{PortId, width_of};

/// Hidden ports, which are no pins: the number of the first, and how many there are.
#[derive(Clone, Copy, Drop, PartialEq, Eq)]
pub struct Straight {
    pub first: u32,
    pub count: u32,
}

impl Straight {
    // None is hidden, of so many ports.
    pub(crate) fn none(ports: u32) -> Straight
        ensures { result ≡ record { first = ports; count = 0 } }
    {
        Straight {
            first: ports,
            count: 0,
        }
    }

    /// Whether a port is one of them.
    pub fn has(self, port: PortId) -> bool
        ensures { result ≡ is_hidden self port.0 }
    {
        self.first <= port.0 && port.0 - self.first < self.count
    }
}

impl Linked {
    /// The hidden ports.
    pub fn straight(&self) -> Straight
        ensures { result ≡ self.now.straight }
    {
        self.straight
    }

    /// Makes these ports the hidden ones, and no others.
    pub fn mark_straight(&mut self, straight: Straight)
        ensures { self.new ≡ record self.old { straight = straight } }
    {
        self.straight = straight;
    }

    /// How many wires within cells stand first among the wires.
    pub fn inner(&self) -> u32
        ensures { result ≡ self.now.inner }
    {
        self.inner
    }

    /// The numbers of the ports that are supply rails.
    pub fn rails(&self) -> &[u32]
        ensures { result.now ≡ self.now.rails }
    {
        self.rails.as_slice()
    }

    /// How many ports stand before the hidden ones.
    pub fn own_port_count(&self) -> u32
        ensures { result ≡ length (own_ports self.now) }
    {
        self.straight.first.min(self.netlist.port_count())
    }

    /// How many bits the ports have together that aren't hidden.
    pub fn own_pin_count(&self) -> u32
        ensures { result + bit_count (hidden_ports self.now) ≡ bit_count self.now.arena.lists.ports }
    {
        self.netlist.pin_count() - hidden_bits(&self.netlist, self.straight)
    }
}

// How many bits the hidden ports have together.
fn hidden_bits(netlist: &Netlist, straight: Straight) -> u32
    ensures bits { result ≡ bit_count (take straight.count (drop straight.first netlist.now.lists.ports)) }
    ensures few { result ≤ bit_count netlist.now.lists.ports }
{
    // Asked so that the proof knows how wide the ports are, and that their bits can be counted.
    netlist.is_laid_out();
    let _pins = netlist.pin_count();
    let ports = netlist.port_count();
    let first = straight.first.min(ports);
    let count = straight.count.min(ports - first);
    let mut bits = 0;
    for place in 0..count {
        bits += width_of(netlist.port_range(PortId(first + place))) as u32;
    }
    bits
}
