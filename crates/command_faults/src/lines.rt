ghost use Rattle.output_lines.specs.Puts.{Puts};
ghost use Rattle.command_faults.specs.Lines.{line_of};

use crate::box_lines::put_box_fault;
use crate::fault::Fault;
use crate::hier_lines::put_hier_fault;
use crate::library_lines::put_library_fault;
use crate::link_lines::{put_link_fault, put_named};
use crate::plan_lines::{put_fit_fault, put_plan_fault, put_registers_fault};
use crate::text_lines::{
    put_device_fault, put_event_fault, put_extended_fault, put_many, put_memory, put_script_fault,
    put_text_fault,
};
use edge_io::sink::Sink;
use edge_io::whole::WriteFault;
use output_lines::{Field, put_line};

/// Puts the line of a fault on the sink: the fault's name and its fields, with one blank between them, and LF. It
/// takes no memory.
pub fn put_fault<O: Sink>(out: &mut O, fault: &Fault) -> Result<(), WriteFault>
    ensures { Puts O.given O.faults out.old out.new (line_of fault.now) result }
{
    match fault {
        Fault::Usage => put_line(out, &Field::Word(b"Usage"), &[]),
        Fault::SameName { name } => put_named(out, b"SameName", name.as_bytes()),
        Fault::ReadFault { name } => put_named(out, b"ReadFault", name.as_bytes()),
        Fault::TooLong { name } => put_named(out, b"TooLong", name.as_bytes()),
        Fault::Netlist(fault) => put_text_fault(out, fault),
        Fault::Hier(fault) => put_hier_fault(out, fault),
        Fault::Boxes(fault) => put_box_fault(out, fault),
        Fault::Link(fault) => put_link_fault(out, fault),
        Fault::Library(fault) => put_library_fault(out, fault),
        Fault::Events(fault) => put_event_fault(out, fault),
        Fault::Script(fault) => put_script_fault(out, fault),
        Fault::Device(fault) => put_device_fault(out, fault),
        Fault::Extended(fault) => put_extended_fault(out, fault),
        Fault::Plan(fault) => put_plan_fault(out, fault),
        Fault::Fit(fault) => put_fit_fault(out, fault),
        Fault::Registers(fault) => put_registers_fault(out, fault),
        Fault::TooMany { what, count, limit } => put_many(out, *what, *count, *limit),
        Fault::NotInserted => put_line(out, &Field::Word(b"NotInserted"), &[]),
        Fault::OutOfMemory => put_memory(out),
        Fault::WriteFault { name } => put_named(out, b"WriteFault", name.as_bytes()),
    }
}
