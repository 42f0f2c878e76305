// Ports in their order, and a table of them by name.
ghost use Rattle.std.specs.Prelude.{◌≡◌, IfOk};
ghost use Rattle.std.specs.Option.{option_copied};
ghost use Rattle.bsdl_device.specs.Ports as declared;
ghost use Rattle.bsdl_lexicon.specs.NameKeys.{names_in};

use bsdl_device::DeclaredPort;
use bsdl_lexicon::NameKey;
use indexmap::IndexMap;
use std::alloc::Global;
use std::marker::Model;
use texts::OutOfMemory;
use texts::first_faults::first_places;

/// The ports of a file, found by name. Of ports of one name the first is found.
#[derive(Drop)]
pub struct PortTable<'a> {
    ports: &'a [DeclaredPort],
    places: IndexMap<NameKey<'a>, usize>,
}

impl<'a> Model for PortTable<'a> {
    ghost use Rattle.std.specs.Prelude.{List};
    ghost use Rattle.bsdl_device.specs.declared.written.DeclaredPort.{DeclaredPort};
    ghost use Rattle.bsdl_port_rules.specs.NameTables.{FindsPorts};

    ghost Value = { List DeclaredPort };

    ghost view = { λ t. t.ports.now };

    ghost invariant = { λ t. FindsPorts t.ports.now t.places.entries };
}

/// The names of ports.
pub fn port_keys<'a>(
    alloc: Global,
    ports: &'a [DeclaredPort],
) -> Result<Vec<NameKey<'a>>, OutOfMemory>
    ensures { IfOk result (λ keys. names_in keys.items ≡ declared.port_names ports.now) }
{
    let mut keys = Vec::new(alloc);
    for port in ports {
        keys.push(NameKey(port.name.as_bytes()))?;
    }
    Ok(keys)
}

impl<'a> PortTable<'a> {
    /// A table of the ports.
    pub fn of(alloc: Global, ports: &'a [DeclaredPort]) -> Result<PortTable<'a>, OutOfMemory>
        ensures { IfOk result (λ table. table ≡ ports.now) }
    {
        let keys = port_keys(alloc, ports)?;
        let places = first_places(alloc, &keys)?;
        Ok(PortTable { ports, places })
    }

    /// The ports in their order.
    pub fn as_slice(&self) -> &[DeclaredPort]
        ensures { result.now ≡ self.now }
    {
        self.ports
    }

    /// The place of the first port of a name, from 0; letters may be of any case.
    pub fn position(&self, name: &[u8]) -> Option<usize>
        ensures { result ≡ declared.place_named self.now name.now }
    {
        self.places.get(&NameKey(name)).copied()
    }

    /// The first port of a name; letters may be of any case.
    pub fn find(&self, name: &[u8]) -> Option<&DeclaredPort>
        ensures { option_copied result ≡ declared.port_named self.now name.now }
    {
        match self.position(name) {
            None => None,
            Some(place) => Some(&self.ports[place]),
        }
    }
}
