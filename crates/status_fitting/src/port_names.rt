// Which names are those of ports.
ghost use Rattle.std.specs.Prelude.{◌+◌, ◌<◌, IfOk, length};
ghost use Rattle.status_fitting.specs.Tables.{FlagsPorts};

use crate::flags::no_flags;
use netlist_link::Linked;
use netlist_model::{Name, PortId};
use std::alloc::Global;
use texts::OutOfMemory;

// Notes the name of a port.
fn note_port(flags: &mut [bool], linked: &Linked, port: PortId)
    requires there { port.0 < length linked.now.arena.lists.ports }
    requires before { FlagsPorts linked.now.names linked.now.arena.lists port.0 flags.old }
    ensures { FlagsPorts linked.now.names linked.now.arena.lists (port.0 + 1) flags.new }
{
    match linked.netlist().port_name(port) {
        Name::Original(number) => flags[number as usize] = true,
        Name::Added(_) => {}
    }
}

/// Of each number of a name, whether a port has it.
pub fn port_names(alloc: Global, linked: &Linked) -> Result<Vec<bool>, OutOfMemory>
    ensures { IfOk result (λ flags. FlagsPorts linked.now.names linked.now.arena.lists
        (length linked.now.arena.lists.ports) flags.items) }
{
    let mut flags = no_flags(alloc, linked.name_count() as usize)?;
    for number in 0..linked.netlist().port_count() {
        note_port(flags.as_mut_slice(), linked, PortId(number));
    }
    Ok(flags)
}
