// Bits of ports without a pin line.
ghost use Rattle.std.specs.Prelude.{◌≡◌, ◌<◌, IfOk, IsSome, Some, length};
ghost use Rattle.netlist_model.specs.Lists.{bit_net};
ghost use Rattle.netlist_model.specs.Formed.{width_of};
ghost use Rattle.netlist_link.specs.WellNamed.{index_from};
ghost use Rattle.plan_fitting.specs.Fits as fits;
ghost use Rattle.pin_plan.specs.Bits.{word_at, missing_among, missing_at};

use crate::bits::BitTable;
use crate::netlist_names::{port_width, text_of_port};
use bsdl_device::runs::written::put_number;
use netlist_link::Linked;
use netlist_model::{PinBit, PortId, Range};
use plan_fitting::FitFault;
use std::alloc::Global;
use texts::{OutOfMemory, Text};

// The index of a bit, counted from the left of a range.
fn index_at(range: Range, bit: u32) -> u32
    requires { bit < width_of (Some range) }
    ensures { Some result ≡ index_from (Some range) bit }
{
    if range.left <= range.right {
        range.left + bit
    } else {
        range.left - bit
    }
}

// The word that names a bit of a port.
fn word_of(alloc: Global, linked: &Linked, pin: PinBit) -> Result<Text, OutOfMemory>
    requires { IsSome (bit_net linked.now.arena.lists pin.port.0 pin.bit) }
    ensures { IfOk result (λ word. word ≡ word_at linked.now pin) }
{
    let netlist = linked.netlist();
    netlist.is_laid_out();
    let mut word = Text::from_bytes(alloc, text_of_port(linked, pin.port))?;
    if let Some(range) = netlist.port_range(pin.port) {
        word.push(b'[')?;
        put_number(&mut word, u64::from(index_at(range, pin.bit)))?;
        word.push(b']')?;
    }
    Ok(word)
}

// The first bit of a port that has no pin line.
fn missing_in_port(
    alloc: Global,
    linked: &Linked,
    bits: &BitTable,
    port: PortId,
) -> Result<Option<FitFault>, OutOfMemory>
    requires { port.0 < length linked.now.arena.lists.ports }
    ensures { IfOk result (λ found. found ≡ missing_at linked.now bits.now port.0) }
{
    for bit in 0..port_width(linked.netlist(), port) {
        let pin = PinBit { port, bit };
        if bits.line_of(pin).is_none() {
            return Ok(Some(FitFault::PlanPortMissing {
                word: word_of(alloc, linked, pin)?,
            }));
        }
    }
    Ok(None)
}

// The first bit that has no pin line.
fn missing_bit(
    alloc: Global,
    linked: &Linked,
    bits: &BitTable,
) -> Result<Option<FitFault>, OutOfMemory>
    ensures { IfOk result (λ found. found ≡ missing_among linked.now bits.now) }
{
    for number in 0..linked.own_port_count() {
        match missing_in_port(alloc, linked, bits, PortId(number))? {
            Some(fault) => return Ok(Some(fault)),
            None => {}
        }
    }
    Ok(None)
}

/// The first bit of a port that has no pin line; or there is no port.
pub fn find_missing(
    alloc: Global,
    linked: &Linked,
    bits: &BitTable,
) -> Result<Option<FitFault>, OutOfMemory>
    ensures { IfOk result (λ found. found ≡ fits.missing_fault linked.now bits.now) }
{
    if linked.own_port_count() == 0 {
        return Ok(Some(FitFault::PlanPortMissing {
            word: Text::from_bytes(alloc, b"pin")?,
        }));
    }
    missing_bit(alloc, linked, bits)
}
