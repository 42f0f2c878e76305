// Copies of parts of trees.
ghost use Rattle.std.specs.Prelude.{◌≡◌, IfOk};

use box_model::BoxPort;
use std::alloc::Global;
use texts::{OutOfMemory, Text};
use verilog_tree::{Bit, Link, Operand};

pub(crate) fn copy_of_bit(alloc: Global, bit: &Bit) -> Result<Bit, OutOfMemory>
    ensures { IfOk result (λ copy. copy ≡ bit.now) }
{
    Ok(Bit {
        net: Text::from_bytes(alloc, bit.net.as_bytes())?,
        index: bit.index,
    })
}

/// A copy of what is linked or assigned.
pub fn copy_of_operand(alloc: Global, operand: &Operand) -> Result<Operand, OutOfMemory>
    ensures { IfOk result (λ copy. copy ≡ operand.now) }
{
    match operand {
        Operand::Bit(bit) => Ok(Operand::Bit(copy_of_bit(alloc, bit)?)),
        Operand::Const(value) => Ok(Operand::Const(*value)),
    }
}

pub(crate) fn copy_of_port(alloc: Global, port: &BoxPort) -> Result<BoxPort, OutOfMemory>
    ensures { IfOk result (λ copy. copy ≡ port.now) }
{
    Ok(BoxPort {
        name: Text::from_bytes(alloc, port.name.as_bytes())?,
        dir: port.dir,
        range: port.range,
    })
}

/// A copy of a link.
pub fn copy_of_link(alloc: Global, link: &Link) -> Result<Link, OutOfMemory>
    ensures { IfOk result (λ copy. copy ≡ link.now) }
{
    let operand = match &link.operand {
        Some(operand) => Some(copy_of_operand(alloc, operand)?),
        None => None,
    };
    Ok(Link {
        port: Text::from_bytes(alloc, link.port.as_bytes())?,
        operand,
    })
}
