// Lines of the faults of boxes.
ghost use Rattle.output_lines.specs.Puts.{Puts};
ghost use Rattle.command_faults.specs.Lines as lines;

use crate::link_lines::{put_bit, put_named, put_port};
use crate::text_lines::put_memory;
use box_model::BoxFault;
use edge_io::sink::Sink;
use edge_io::whole::WriteFault;

/// Puts the line of a module whose boxes can't be opened.
pub fn put_box_fault<O: Sink>(out: &mut O, fault: &BoxFault) -> Result<(), WriteFault>
    ensures { Puts O.given O.faults out.old out.new (lines.box_line fault.now) result }
{
    match fault {
        BoxFault::BoxUnknown { instance } => put_named(out, b"BoxUnknown", instance.as_bytes()),
        BoxFault::BoxLink { instance, port } => {
            put_port(out, b"BoxLink", instance.as_bytes(), port.as_bytes())
        }
        BoxFault::BoxName { name } => put_named(out, b"BoxName", name.as_bytes()),
        BoxFault::BoxTristate { bit } => put_bit(out, b"BoxTristate", bit),
        BoxFault::OutOfMemory => put_memory(out),
    }
}
