// The bits that pin lines name, found by the numbers of their ports and their places in these.
ghost use Rattle.std.specs.Prelude.{◌≡◌, IfOk, map, position};
ghost use Rattle.plan_fitting.specs.Pins.{same_bit};
ghost use Rattle.pin_plan.specs.Keys.{key_of_bit, keys_of_pins};

use crate::keys::BitKey;
use crate::pins::PinAt;
use indexmap::IndexMap;
use netlist_model::PinBit;
use std::alloc::Global;
use std::marker::Model;
use texts::OutOfMemory;
use texts::first_faults::first_places;

/// The bits that pin lines name. Of lines of one bit the first is found.
#[derive(Drop)]
pub struct BitTable<'a> {
    pins: &'a [PinAt],
    places: IndexMap<BitKey, usize>,
}

impl<'a> Model for BitTable<'a> {
    ghost use Rattle.std.specs.Prelude.{List};
    ghost use Rattle.plan_fitting.specs.Pins.{PinSeen};
    ghost use Rattle.pin_plan.specs.Keys.{FindsBits};

    ghost Value = { List PinSeen };

    ghost view = { λ t. t.pins.now };

    ghost invariant = { λ t. FindsBits t.pins.now t.places.entries };
}

/// A bit as a key.
pub fn bit_key(pin: PinBit) -> BitKey
    ensures { result ≡ key_of_bit pin }
{
    BitKey {
        port: pin.port.0,
        bit: pin.bit,
    }
}

fn bit_keys(alloc: Global, pins: &[PinAt]) -> Result<Vec<BitKey>, OutOfMemory>
    ensures { IfOk result (λ keys. keys.items ≡ keys_of_pins pins.now) }
{
    let mut keys = Vec::new(alloc);
    for one in pins {
        keys.push(bit_key(one.pin))?;
    }
    Ok(keys)
}

impl<'a> BitTable<'a> {
    /// A table of the bits.
    pub fn of(alloc: Global, pins: &'a [PinAt]) -> Result<BitTable<'a>, OutOfMemory>
        ensures { IfOk result (λ table. table ≡ pins.now) }
    {
        let keys = bit_keys(alloc, pins)?;
        let places = first_places(alloc, &keys)?;
        Ok(BitTable { pins, places })
    }

    /// The place of the first pin line that names the bit.
    pub fn line_of(&self, pin: PinBit) -> Option<usize>
        ensures { result ≡ position (λ one. same_bit one.pin pin) self.now }
    {
        self.places.get(&bit_key(pin)).copied()
    }
}
