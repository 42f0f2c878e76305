// The wires of a netlist, found by words.
ghost use Rattle.std.specs.Prelude.{◌≡◌, ◌↔◌, ◌+◌, ◌<◌, IfOk, IsTrue, OnOk, None, Some, length, if◌then◌else◌};
ghost use Rattle.std.specs.Map.{lookup};
ghost use Rattle.netlist_model.specs.Formed.{IsDriven};
ghost use Rattle.status_fitting.specs.declared.keys.WireKey.{WireKey};
ghost use Rattle.status_fitting.specs.Keys.{same_key};
ghost use Rattle.status_fitting.specs.Steps.{Finds};
ghost use Rattle.netlist_model.specs.declared.Name.{Name as NameNumber};
ghost use Rattle.link_model.specs.Denoted.{name_bytes};
ghost use Rattle.netlist_link.specs.WellNamed.{IsWellNamed};
ghost use Rattle.status_fitting.specs.Tables.{FindsWires, FlagsPorts, IsKeyOf, IsWireUnder};
ghost use Rattle.status_fitting.specs.Wires.{IsVectorWord, IsWireBit, NamesDriven, NamesWire};

use crate::driven::driven_nets;
use crate::flags::is_flagged;
use crate::keys::WireKey;
use crate::port_names::port_names;
use crate::words::split_index;
use indexmap::IndexMap;
use netlist_link::Linked;
use netlist_model::{Name, NetId};
use std::alloc::Global;
use std::marker::Model;
use texts::OutOfMemory;

/// The wires of a netlist, by their names and indexes, and which nets are driven.
#[derive(Drop)]
pub struct WireTable<'a> {
    linked: &'a Linked,
    nets: IndexMap<WireKey, NetId>,
    driven: Vec<bool>,
}

impl<'a> Model for WireTable<'a> {
    ghost use Rattle.std.specs.Prelude.{length};
    ghost use Rattle.netlist_link.specs.Linked.{LinkedView};
    ghost use Rattle.status_fitting.specs.Tables.{FindsWires, FlagsAllDriven};

    ghost Value = { LinkedView };

    ghost view = { λ t. t.linked.now };

    ghost invariant = { λ t. record {
      nets : FindsWires t.linked.now.arena.lists (length t.linked.now.arena.lists.nets) t.nets.entries;
      driven : FlagsAllDriven t.linked.now.arena.lists t.driven.items;
    } };
}

// The key of a net, if it is a wire's; `ports` flags the names of ports.
fn key_of(linked: &Linked, ports: &[bool], net: NetId) -> Option<WireKey>
    requires there { net.0 < length linked.now.arena.lists.nets }
    requires ports { FlagsPorts linked.now.names linked.now.arena.lists
        (length linked.now.arena.lists.ports) ports.now }
    ensures { IsKeyOf linked.now.arena.lists net.0 result }
{
    let netlist = linked.netlist();
    let index = netlist.net_index(net);
    match netlist.net_name(net) {
        Name::Original(number) => {
            (!is_flagged(ports, number)).then_some(WireKey { number, index })
        }
        Name::Added(_) => None,
    }
}

fn enter_key(
    nets: &mut IndexMap<WireKey, NetId>,
    key: WireKey,
    net: NetId,
) -> Result<(), OutOfMemory>
    ensures { OnOk result ((k : WireKey) → lookup (same_key k) nets.new.entries
        ≡ (if same_key key k then Some net else lookup (same_key k) nets.old.entries)) }
{
    nets.insert(key, net)?;
    Ok(())
}

// Enters a net, if it is a wire's.
fn enter_net(
    nets: &mut IndexMap<WireKey, NetId>,
    linked: &Linked,
    ports: &[bool],
    net: NetId,
) -> Result<(), OutOfMemory>
    requires there { net.0 < length linked.now.arena.lists.nets }
    requires ports { FlagsPorts linked.now.names linked.now.arena.lists
        (length linked.now.arena.lists.ports) ports.now }
    requires before { FindsWires linked.now.arena.lists net.0 nets.old.entries }
    ensures { OnOk result (FindsWires linked.now.arena.lists (net.0 + 1) nets.new.entries) }
{
    match key_of(linked, ports, net) {
        Some(key) => enter_key(nets, key, net),
        None => Ok(()),
    }
}

// The wires by their names and indexes.
fn wires_of(alloc: Global, linked: &Linked) -> Result<IndexMap<WireKey, NetId>, OutOfMemory>
    ensures { IfOk result (λ nets. FindsWires linked.now.arena.lists
        (length linked.now.arena.lists.nets) nets.entries) }
{
    let ports = port_names(alloc, linked)?;
    let mut nets = IndexMap::new(alloc);
    for number in 0..linked.netlist().net_count() {
        enter_net(&mut nets, linked, &ports, NetId(number))?;
    }
    Ok(nets)
}

impl<'a> WireTable<'a> {
    /// A table of the netlist's wires.
    pub fn of(alloc: Global, linked: &'a Linked) -> Result<WireTable<'a>, OutOfMemory>
        ensures { IfOk result (λ table. table ≡ linked.now) }
    {
        let nets = wires_of(alloc, linked)?;
        let driven = driven_nets(alloc, linked.netlist())?;
        Ok(WireTable {
            linked,
            nets,
            driven,
        })
    }

    // Does nothing: the netlist is well named.
    fn is_well_named(&self)
        ensures { IsWellNamed self.now.names self.now.arena.lists }
    {
        let _netlist = self.linked.netlist();
    }

    // The net of the wire's bit under a name and an index.
    fn net_under(&self, name: Name, index: Option<u32>) -> Option<NetId>
        ensures { Finds (IsWireUnder self.now.arena.lists name index) result }
    {
        match name {
            Name::Original(number) => self.nets.get(&WireKey { number, index }).copied(),
            Name::Added(_) => None,
        }
    }

    // The name of the table with these bytes.
    fn name_called(&self, name: &[u8]) -> Option<Name>
        ensures { (found : NameNumber) → (result ≡ Some found)
            ↔ (name_bytes self.now.names found ≡ Some name.now) }
    {
        self.linked.find_name(name)
    }

    // The net of a wire's bit.
    fn wire_bit(&self, name: &[u8], index: Option<u32>) -> Option<NetId>
        ensures { Finds (IsWireBit self.now name.now index) result }
    {
        match self.name_called(name) {
            Some(called) => self.net_under(called, index),
            None => None,
        }
    }

    // The net of the bit that a name with an index names.
    fn vector_bit(&self, word: &[u8]) -> Option<NetId>
        ensures { Finds (IsVectorWord self.now word.now) result }
    {
        match split_index(word) {
            Some(indexed) => self.wire_bit(indexed.name, Some(indexed.index)),
            None => None,
        }
    }

    // The net of the wire's bit that a word names.
    fn named(&self, word: &[u8]) -> Option<NetId>
        ensures { Finds (NamesWire self.now word.now) result }
    {
        match self.wire_bit(word, None) {
            Some(net) => Some(net),
            None => self.vector_bit(word),
        }
    }

    fn is_driven(&self, net: NetId) -> bool
        ensures { IsTrue result ↔ IsDriven self.now.arena.lists net.0 }
    {
        is_flagged(&self.driven, net.0)
    }

    /// The net of the driven wire's bit that a word names.
    pub fn driven_named(&self, word: &[u8]) -> Option<NetId>
        ensures { Finds (NamesDriven self.now word.now) result }
    {
        self.is_well_named();
        match self.named(word) {
            Some(net) => self.is_driven(net).then_some(net),
            None => None,
        }
    }
}
