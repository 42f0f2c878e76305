// The entries of a pin map, found by their ports.
ghost use Rattle.std.specs.Prelude.{◌≡◌, IfOk, find, position};
ghost use Rattle.std.specs.Option.{option_copied};
ghost use Rattle.bsdl_lexicon.specs.Names.{is_same_name};

use bsdl_device::PinEntry;
use bsdl_lexicon::NameKey;
use bsdl_port_rules::mapped_ports;
use indexmap::IndexMap;
use std::alloc::Global;
use std::marker::Model;
use texts::OutOfMemory;
use texts::first_faults::first_places;

/// The entries of a pin map. Of entries of one port the first is found.
#[derive(Drop)]
pub struct PinTable<'a> {
    entries: &'a [PinEntry],
    places: IndexMap<NameKey<'a>, usize>,
}

impl<'a> Model for PinTable<'a> {
    ghost use Rattle.std.specs.Prelude.{List};
    ghost use Rattle.bsdl_device.specs.declared.entries.PinEntry.{PinEntry};
    ghost use Rattle.bsdl_checks.specs.Tables.{FindsEntries};

    ghost Value = { List PinEntry };

    ghost view = { λ t. t.entries.now };

    ghost invariant = { λ t. FindsEntries t.entries.now t.places.entries };
}

impl<'a> PinTable<'a> {
    /// A table of the entries.
    pub fn of(alloc: Global, entries: &'a [PinEntry]) -> Result<PinTable<'a>, OutOfMemory>
        ensures { IfOk result (λ table. table ≡ entries.now) }
    {
        let keys = mapped_ports(alloc, entries)?;
        let places = first_places(alloc, &keys)?;
        Ok(PinTable { entries, places })
    }

    fn position(&self, name: &[u8]) -> Option<usize>
        ensures { result ≡ position (λ e. is_same_name e.port name.now) self.now }
    {
        self.places.get(&NameKey(name)).copied()
    }

    /// The entry of a port.
    pub fn find(&self, name: &[u8]) -> Option<&PinEntry>
        ensures { option_copied result ≡ find (λ e. is_same_name e.port name.now) self.now }
    {
        match self.position(name) {
            None => None,
            Some(place) => Some(&self.entries[place]),
        }
    }
}
