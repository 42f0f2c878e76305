// Which nets are those of hidden bits.
ghost use Rattle.std.specs.Prelude.{◌≡◌, ◌<◌, IfOk, length};
ghost use Rattle.netlist_link.specs.Hidden.{EndsHidden};
ghost use Rattle.netlist_link.specs.Linked.{hidden_nets};
ghost use Rattle.pin_plan.specs.Marks.{MarksHidden, marked, nets_at};

use crate::netlist_names::port_width;
use netlist_arena::Netlist;
use netlist_link::Linked;
use netlist_model::{PinBit, PortId};
use std::alloc::Global;
use texts::OutOfMemory;

// Marks the nets of a port's bits.
fn mark_port(marks: &mut [bool], netlist: &Netlist, port: PortId)
    requires there { port.0 < length netlist.now.lists.ports }
    requires long { length marks.old ≡ length netlist.now.lists.nets }
    ensures { marks.new ≡ marked (nets_at netlist.now.lists port.0) marks.old }
{
    netlist.is_laid_out();
    for bit in 0..port_width(netlist, port) {
        let net = netlist.pin_net(PinBit { port, bit });
        marks[net.0 as usize] = true;
    }
}

// Marks the nets of hidden bits.
fn mark_ports(marks: &mut [bool], linked: &Linked)
    requires last { EndsHidden linked.now }
    requires long { length marks.old ≡ length linked.now.arena.lists.nets }
    ensures { marks.new ≡ marked (hidden_nets linked.now) marks.old }
{
    let straight = linked.straight();
    let _ports = linked.netlist().port_count();
    for place in 0..straight.count {
        mark_port(marks, linked.netlist(), PortId(straight.first + place));
    }
}

/// Of each net, whether it is that of a hidden bit.
pub fn hidden_marks(alloc: Global, linked: &Linked) -> Result<Vec<bool>, OutOfMemory>
    requires { EndsHidden linked.now }
    ensures { IfOk result (λ marks. MarksHidden linked.now marks.items) }
{
    let mut marks = vec![in alloc; false; linked.netlist().net_count() as usize]?;
    mark_ports(marks.as_mut_slice(), linked);
    Ok(marks)
}
