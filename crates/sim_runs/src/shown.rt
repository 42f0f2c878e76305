// The bits whose readings are told.

ghost use Rattle.std.specs.Prelude.{◌≡◌, ◌<◌, ◌++◌, length, map, slice_get, IfOk, OnOk};
ghost use Rattle.sim_runs.specs.Bits.{AreBits, HavePins, net_at, port_nets, shown_at, told_of, untold};

use netlist_arena::Netlist;
use netlist_model::{Dir, NetId, PinBit, PortId, width_of};
use signal_values::PinSig;
use std::alloc::Global;
use texts::OutOfMemory;

/// An output or inout bit with its net.
#[derive(Clone, Copy)]
pub struct Shown {
    pub pin: PinBit,
    pub net: NetId,
}

/// The output and inout bits in the order of the ports, bits from the left.
pub fn shown_bits(alloc: Global, netlist: &Netlist) -> Result<Vec<Shown>, OutOfMemory>
    ensures { IfOk result (λ bits. AreBits netlist.now.lists bits.items) }
{
    let mut bits = Vec::new(alloc);
    for number in 0..netlist.port_count() {
        add_port(netlist, PortId(number), &mut bits)?;
    }
    Ok(bits)
}

/// Nothing told of any bit yet.
pub fn untold_bits(alloc: Global, bits: &[Shown]) -> Result<Vec<Option<PinSig>>, OutOfMemory>
    ensures { IfOk result (λ told. told.items ≡ told_of untold bits.now) }
{
    let mut told = Vec::new(alloc);
    for bit in bits {
        let _bit = bit;
        told.push(None)?;
    }
    Ok(told)
}

// Adds the bits of a port, unless it is an input.
fn add_port(netlist: &Netlist, port: PortId, bits: &mut Vec<Shown>) -> Result<(), OutOfMemory>
    requires there { port.0 < length netlist.now.lists.ports }
    requires pins { HavePins netlist.now.lists bits.old.items }
    ensures pins { OnOk result (HavePins netlist.now.lists bits.new.items) }
    ensures nets { OnOk result (map net_at bits.new.items ≡ map net_at bits.old.items
        ++ shown_at (slice_get netlist.now.lists.ports port.0)) }
{
    match netlist.port_dir(port) {
        Dir::Input => Ok(()),
        Dir::Output | Dir::Inout => add_bits(netlist, port, bits),
    }
}

// Adds the bits of a port.
fn add_bits(netlist: &Netlist, port: PortId, bits: &mut Vec<Shown>) -> Result<(), OutOfMemory>
    requires there { port.0 < length netlist.now.lists.ports }
    requires pins { HavePins netlist.now.lists bits.old.items }
    ensures pins { OnOk result (HavePins netlist.now.lists bits.new.items) }
    ensures nets { OnOk result (map net_at bits.new.items ≡ map net_at bits.old.items
        ++ port_nets (slice_get netlist.now.lists.ports port.0)) }
{
    netlist.is_laid_out();
    for bit in 0..width_of(netlist.port_range(port)) {
        let pin = PinBit {
            port,
            bit: bit as u32,
        };
        let net = netlist.pin_net(pin);
        bits.push(Shown { pin, net })?;
    }
    Ok(())
}
