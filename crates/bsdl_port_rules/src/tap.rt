// Rules on the test access port.
ghost use Rattle.std.specs.Prelude.{◌≡◌, IfOk};
ghost use Rattle.bsdl_device.specs.Ports as declared;
ghost use Rattle.bsdl_device.specs.Checks as rule;
ghost use Rattle.bsdl_lexicon.specs.NameKeys.{names_in};

use crate::names::is_repeated;
use crate::port_table::PortTable;
use bsdl_device::{File, PortMode, TapNames};
use bsdl_lexicon::NameKey;
use std::alloc::Global;
use texts::OutOfMemory;

/// Whether the modes are one.
pub fn is_mode(wanted: PortMode, mode: PortMode) -> bool
    ensures { result ≡ declared.is_mode wanted mode }
{
    match (wanted, mode) {
        (PortMode::Input, PortMode::Input) => true,
        (PortMode::Output, PortMode::Output) => true,
        (PortMode::Inout, PortMode::Inout) => true,
        (PortMode::Linkage, PortMode::Linkage) => true,
        (_, _) => false,
    }
}

fn is_scalar_port(ports: &PortTable, wanted: PortMode, name: &[u8]) -> bool
    ensures { result ≡ rule.is_scalar_port ports.now wanted name.now }
{
    match ports.find(name) {
        None => false,
        Some(port) => port.range.is_none() && is_mode(wanted, port.mode),
    }
}

fn tap_port_misfits(ports: &PortTable, tap: &TapNames) -> bool
    ensures { result ≡ rule.tap_port_misfits ports.now tap.now }
{
    !is_scalar_port(ports, PortMode::Input, tap.tck.as_bytes())
        || !is_scalar_port(ports, PortMode::Input, tap.tms.as_bytes())
        || !is_scalar_port(ports, PortMode::Input, tap.tdi.as_bytes())
        || !is_scalar_port(ports, PortMode::Output, tap.tdo.as_bytes())
        || !is_scalar_port(ports, PortMode::Input, tap.trst.as_bytes())
}

fn tap_keys<'a>(alloc: Global, tap: &'a TapNames) -> Result<Vec<NameKey<'a>>, OutOfMemory>
    ensures { IfOk result (λ keys. names_in keys.items ≡ rule.tap_names tap.now) }
{
    let mut keys = Vec::new(alloc);
    keys.push(NameKey(tap.tck.as_bytes()))?;
    keys.push(NameKey(tap.tms.as_bytes()))?;
    keys.push(NameKey(tap.tdi.as_bytes()))?;
    keys.push(NameKey(tap.tdo.as_bytes()))?;
    keys.push(NameKey(tap.trst.as_bytes()))?;
    Ok(keys)
}

/// A name isn't a scalar port's of the right mode, or comes twice.
pub fn tap_fails(alloc: Global, file: &File, ports: &PortTable) -> Result<bool, OutOfMemory>
    requires { ports.now ≡ declared.declared_ports file.now }
    ensures { IfOk result (λ fails. fails ≡ rule.tap_fails file.now) }
{
    let names = tap_keys(alloc, &file.tap)?;
    let twice = is_repeated(alloc, &names)?;
    Ok(tap_port_misfits(ports, &file.tap) || twice)
}
