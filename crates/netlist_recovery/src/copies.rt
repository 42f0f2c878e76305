// Copies of what the core keeps.
ghost use Rattle.std.specs.Prelude.{◌≡◌, IfOk};

use plan_fitting::copies::text_copy;
use std::alloc::Global;
use texts::{OutOfMemory, Text};
use verilog_tree::{Bit, Operand, Port, Wire};

/// A copy of a name, if there is one.
pub fn copy_name(alloc: Global, name: &Option<Text>) -> Result<Option<Text>, OutOfMemory>
    ensures { IfOk result (λ copy. copy ≡ name.now) }
{
    match name {
        Some(name) => Ok(Some(text_copy(alloc, name)?)),
        None => Ok(None),
    }
}

/// A copy of a bit.
pub fn copy_bit(alloc: Global, bit: &Bit) -> Result<Bit, OutOfMemory>
    ensures { IfOk result (λ copy. copy ≡ bit.now) }
{
    Ok(Bit {
        net: text_copy(alloc, &bit.net)?,
        index: bit.index,
    })
}

/// A copy of an operand.
pub fn copy_operand(alloc: Global, operand: &Operand) -> Result<Operand, OutOfMemory>
    ensures { IfOk result (λ copy. copy ≡ operand.now) }
{
    match operand {
        Operand::Bit(bit) => Ok(Operand::Bit(copy_bit(alloc, bit)?)),
        Operand::Const(value) => Ok(Operand::Const(*value)),
    }
}

/// A copy of a port.
pub fn copy_port(alloc: Global, port: &Port) -> Result<Port, OutOfMemory>
    ensures { IfOk result (λ copy. copy ≡ port.now) }
{
    Ok(Port {
        name: text_copy(alloc, &port.name)?,
        dir: port.dir,
        range: port.range,
    })
}

/// A copy of a wire.
pub fn copy_wire(alloc: Global, wire: &Wire) -> Result<Wire, OutOfMemory>
    ensures { IfOk result (λ copy. copy ≡ wire.now) }
{
    Ok(Wire {
        name: text_copy(alloc, &wire.name)?,
        range: wire.range,
    })
}
