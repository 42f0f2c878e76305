// The nets of the shown bits.

ghost use Rattle.std.specs.Prelude.{◌≡◌, ◌<◌, ◌++◌, length, slice_get, IfOk, OnOk};
ghost use Rattle.event_sim.specs.Shown.{shown_at, shown_nets};

use netlist_arena::Netlist;
use netlist_model::{Dir, NetId, PortId};
use std::alloc::Global;
use texts::OutOfMemory;

/// The nets of the output and inout bits in the order of the ports, bits from the left.
pub(crate) fn nets_of(alloc: Global, netlist: &Netlist) -> Result<Vec<NetId>, OutOfMemory>
    ensures { IfOk result (λ nets. nets.items ≡ shown_nets netlist.now.lists) }
{
    let mut nets = Vec::new(alloc);
    for number in 0..netlist.port_count() {
        add_nets(alloc, netlist, PortId(number), &mut nets)?;
    }
    Ok(nets)
}

// Adds the nets of a port, unless it is an input.
#[tactic(auto, using(crate::proofs::ShownBits::none_shown, crate::proofs::ShownBits::output_shown, crate::proofs::ShownBits::inout_shown))]
fn add_nets(
    alloc: Global,
    netlist: &Netlist,
    port: PortId,
    nets: &mut Vec<NetId>,
) -> Result<(), OutOfMemory>
    requires { port.0 < length netlist.now.lists.ports }
    ensures { OnOk result (nets.new.items
        ≡ nets.old.items ++ shown_at (slice_get netlist.now.lists.ports port.0)) }
{
    let own = netlist.port_nets(alloc, port)?;
    match netlist.port_dir(port) {
        Dir::Input => {}
        Dir::Output | Dir::Inout => nets.extend_from_slice(own.as_slice())?,
    }
    Ok(())
}
