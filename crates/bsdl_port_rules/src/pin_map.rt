// Rules on the pin map.
ghost use Rattle.std.specs.Prelude.{◌≡◌, ◌++◌, IfOk, OnOk, map, not};
ghost use Rattle.std.specs.List.{list_any};
ghost use Rattle.bsdl_device.specs.Ports as declared;
ghost use Rattle.bsdl_device.specs.Checks as rule;
ghost use Rattle.bsdl_port_rules.specs.Keys.{is_once};
ghost use Rattle.bsdl_lexicon.specs.NameKeys.{names_in};
ghost use Rattle.bsdl_port_rules.specs.NameTables.{under_name};

use crate::keys::{Uses, comes_once, uses_of};
use crate::names::{extend_keys, is_repeated};
use crate::port_table::PortTable;
use crate::ports::width;
use bsdl_device::{Contents, DeclaredPort, File, MappedPins, PinEntry, PortRange};
use bsdl_lexicon::NameKey;
use indexmap::IndexMap;
use std::alloc::Global;
use texts::OutOfMemory;

/// The ports that the entries map, in their order, each as often as entries map it.
pub fn mapped_ports<'a>(
    alloc: Global,
    entries: &'a [PinEntry],
) -> Result<Vec<NameKey<'a>>, OutOfMemory>
    ensures { IfOk result (λ keys. names_in keys.items ≡ map (λ e. e.port) entries.now) }
{
    let mut keys = Vec::new(alloc);
    for entry in entries {
        keys.push(NameKey(entry.port.as_bytes()))?;
    }
    Ok(keys)
}

fn is_mapped_once(mapped: &IndexMap<NameKey, Uses>, port: &DeclaredPort) -> bool
    ensures { result ≡ is_once (under_name mapped.now.entries port.now.name) }
{
    comes_once(mapped.get(&NameKey(port.name.as_bytes())).copied())
}

fn some_not_once(ports: &[DeclaredPort], mapped: &IndexMap<NameKey, Uses>) -> bool
    ensures { result ≡ list_any (λ p. not (is_once (under_name mapped.now.entries p.name))) ports.now }
{
    ports.iter().any(|port| !is_mapped_once(mapped, port))
}

fn port_not_mapped_once(
    alloc: Global,
    ports: &[DeclaredPort],
    entries: &[PinEntry],
) -> Result<bool, OutOfMemory>
    ensures { IfOk result (λ fails. fails ≡ rule.port_not_mapped_once ports.now entries.now) }
{
    let keys = mapped_ports(alloc, entries)?;
    let mapped = uses_of(alloc, &keys)?;
    Ok(some_not_once(ports, &mapped))
}

fn has_pins_for(range: Option<PortRange>, pins: &MappedPins) -> bool
    ensures { result ≡ rule.has_pins_for range pins.now }
{
    match (range, pins) {
        (None, MappedPins::One(_)) => true,
        (None, MappedPins::Several(_)) => false,
        (Some(_), MappedPins::One(_)) => false,
        (Some(_), MappedPins::Several(list)) => list.len() as u64 == width(range),
    }
}

fn entry_misfits(ports: &PortTable, entry: &PinEntry) -> bool
    ensures { result ≡ rule.entry_misfits ports.now entry.now }
{
    match ports.find(entry.port.as_bytes()) {
        None => true,
        Some(port) => !has_pins_for(port.range, &entry.pins),
    }
}

fn some_misfits(ports: &PortTable, entries: &[PinEntry]) -> bool
    ensures { result ≡ list_any (rule.entry_misfits ports.now) entries.now }
{
    entries.iter().any(|entry| entry_misfits(ports, entry))
}

// Adds the pins of an entry at the end.
fn extend_pins<'a>(keys: &mut Vec<NameKey<'a>>, pins: &'a MappedPins) -> Result<(), OutOfMemory>
    ensures { OnOk result (names_in keys.new.items ≡ names_in keys.old.items
        ++ rule.entry_pins pins.now) }
{
    match pins {
        MappedPins::One(pin) => {
            keys.push(NameKey(pin.as_bytes()))?;
            Ok(())
        }
        MappedPins::Several(list) => extend_keys(keys, list.as_slice()),
    }
}

fn all_pins<'a>(alloc: Global, entries: &'a [PinEntry]) -> Result<Vec<NameKey<'a>>, OutOfMemory>
    ensures { IfOk result (λ keys. names_in keys.items ≡ rule.all_pins entries.now) }
{
    let mut keys = Vec::new(alloc);
    for entry in entries {
        extend_pins(&mut keys, &entry.pins)?;
    }
    Ok(keys)
}

/// A port isn't mapped exactly once and to as many pins as it has bits, or a pin comes twice.
pub fn pin_map_fails(
    alloc: Global,
    file: &File,
    contents: &Contents,
    ports: &PortTable,
) -> Result<bool, OutOfMemory>
    requires { ports.now ≡ declared.declared_ports file.now }
    ensures { IfOk result (λ fails. fails ≡ rule.pin_map_fails file.now contents.now) }
{
    let entries = contents.pin_map.as_slice();
    let pins = all_pins(alloc, entries)?;
    let twice = is_repeated(alloc, &pins)?;
    let unmapped = port_not_mapped_once(alloc, ports.as_slice(), entries)?;
    Ok(unmapped || some_misfits(ports, entries) || twice)
}
