// The bits of ports of the device's own logic, and the rows that they stand in.
ghost use Rattle.std.specs.Prelude.{◌≡◌, ◌&&◌, ◌<◌, Some};
ghost use Rattle.std.specs.List.{list_any};
ghost use Rattle.bsdl_row_rules.specs.Bits.{some_bit};
ghost use Rattle.bsdl_device.specs.Ports as declared;
ghost use Rattle.bsdl_device.specs.RowRules as row_rule;

use crate::bit_rows::BitRows;
use bsdl_device::{DeclaredPort, PortBit, PortMode, PortRange, TapNames};
use bsdl_lexicon::names::same_name;
use bsdl_port_rules::{PortTable, is_mode, width};

fn is_tap_port(tap: &TapNames, name: &[u8]) -> bool
    ensures { result ≡ row_rule.is_tap_port tap.now name.now }
{
    same_name(name, tap.tck.as_bytes())
        || same_name(name, tap.tms.as_bytes())
        || same_name(name, tap.tdi.as_bytes())
        || same_name(name, tap.tdo.as_bytes())
        || same_name(name, tap.trst.as_bytes())
}

fn is_system_port(tap: &TapNames, port: &DeclaredPort) -> bool
    ensures { result ≡ row_rule.is_system_port tap.now port.now }
{
    !is_tap_port(tap, port.name.as_bytes()) && !is_mode(PortMode::Linkage, port.mode)
}

fn is_within(range: PortRange, index: u32) -> bool
    ensures { result ≡ declared.is_within range index }
{
    (range.left <= index && index <= range.right) || (range.right <= index && index <= range.left)
}

fn has_bit(range: Option<PortRange>, index: Option<u32>) -> bool
    ensures { result ≡ declared.has_bit range index }
{
    match (range, index) {
        (None, None) => true,
        (Some(range), Some(index)) => is_within(range, index),
        (_, _) => false,
    }
}

/// Whether the bit is one of a port of the device's own logic.
pub fn is_system_bit(ports: &PortTable, tap: &TapNames, bit: &PortBit) -> bool
    ensures { result ≡ row_rule.is_system_bit ports.now tap.now bit.now }
{
    match ports.find(bit.port.as_bytes()) {
        None => false,
        Some(port) => has_bit(port.range, bit.index) && is_system_port(tap, port),
    }
}

fn not_in_one_row(rows: &BitRows, name: &[u8], index: Option<u32>) -> bool
    ensures { result ≡ row_rule.bit_not_in_one_row rows.now (declared.bit_of_port name.now index) }
{
    !rows.has_once(name, index)
}

fn index_at(range: PortRange, place: u64) -> u32
    requires { place < declared.width (Some range) }
    ensures { result ≡ declared.index_at range place }
{
    let place = place as u32;
    if range.left <= range.right {
        range.left + place
    } else {
        range.left - place
    }
}

// A bit of a vector stands in no row or in two.
fn some_of_vector(rows: &BitRows, name: &[u8], range: PortRange) -> bool
    ensures { result ≡ list_any (λ place. row_rule.bit_not_in_one_row rows.now
        (declared.bit_of_port name.now (Some (declared.index_at range place))))
        (declared.counted_from 0 (declared.width (Some range))) }
{
    let count = width(Some(range));
    for place in 0..count {
        if not_in_one_row(rows, name, Some(index_at(range, place))) {
            return true;
        }
    }
    false
}

// A bit of the port stands in no row or in two.
fn some_of_port(rows: &BitRows, port: &DeclaredPort) -> bool
    ensures { result ≡ some_bit (row_rule.bit_not_in_one_row rows.now) port.now }
{
    let name = port.name.as_bytes();
    match port.range {
        None => not_in_one_row(rows, name, None),
        Some(range) => some_of_vector(rows, name, range),
    }
}

fn some_of_ports(rows: &BitRows, ports: &[DeclaredPort], tap: &TapNames) -> bool
    ensures { result ≡ list_any (λ p. row_rule.is_system_port tap.now p
        && some_bit (row_rule.bit_not_in_one_row rows.now) p) ports.now }
{
    ports.iter().any(|port| is_system_port(tap, port) && some_of_port(rows, port))
}

/// Whether a bit of the device's own logic stands in no row or in two.
#[tactic(auto, using(crate::proofs::Bits::along_bits))]
pub fn some_bit_not_in_one_row(rows: &BitRows, ports: &PortTable, tap: &TapNames) -> bool
    ensures { result ≡ list_any (row_rule.bit_not_in_one_row rows.now)
        (row_rule.system_bits ports.now tap.now) }
{
    some_of_ports(rows, ports.as_slice(), tap)
}
