ghost use Rattle.std.specs.Prelude.{◌≡◌, ◌+◌, ◌<◌, ◌≤◌, ◌^◌, length, vec_len, vec_capacity, IfOk};

use crate::room::push_reserved;
use crate::{Netlist, Port};
use linked_cells::lower_texts::OutOfMemory;
use linked_cells::{copied_cells, copied_nets};
use std::alloc::Global;

impl Netlist {
    /// An equal netlist, with as much room. A walk over the readers of a net goes on in it.
    pub fn copy(&self, alloc: Global) -> Result<Netlist, OutOfMemory>
        ensures lists { IfOk result (λ copy. copy.lists ≡ self.now.lists) }
        ensures spare { IfOk result (λ copy. copy.spare ≡ self.now.spare) }
        ensures walks { IfOk result (λ copy. copy.walks ≡ self.now.walks) }
    {
        let library = self.library.copy(alloc)?;
        let ports = copied_ports(alloc, &self.ports, self.spare_pins)?;
        let nets = copied_nets(alloc, &self.nets)?;
        let cells = copied_cells(alloc, &self.cells)?;
        Ok(Netlist {
            library,
            ports,
            pins: self.pins,
            spare_pins: self.spare_pins,
            nets,
            spare_nets: self.spare_nets,
            cells,
            spare_cells: self.spare_cells,
            alloc,
        })
    }
}

impl Port {
    fn copy(&self, alloc: Global) -> Result<Port, OutOfMemory>
        ensures { IfOk result (λ copy. copy ≡ self.now) }
    {
        let rest = Vec::from_slice(alloc, &self.rest)?;
        Ok(Port {
            name: self.name,
            dir: self.dir,
            range: self.range,
            first: self.first,
            rest,
        })
    }
}

fn copied_ports(alloc: Global, ports: &[Port], spare: u32) -> Result<Vec<Port>, OutOfMemory>
    requires { length ports.now < 2 ^ 32 }
    ensures items { IfOk result (λ copies. copies.items ≡ ports.now) }
    ensures room { IfOk result (λ copies. length ports.now + spare ≤ vec_capacity copies) }
{
    let mut copies = Vec::with_capacity(alloc, ports.len() + spare as usize)?;
    for port in ports {
        let copy = port.copy(alloc)?;
        push_reserved(&mut copies, copy);
    }
    Ok(copies)
}
