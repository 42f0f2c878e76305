// Lines of the faults of plans, and of data registers of a design's own.
ghost use Rattle.output_lines.specs.Puts.{Puts};
ghost use Rattle.command_faults.specs.Lines as lines;

use crate::link_lines::put_named;
use crate::text_lines::{put_memory, put_place};
use edge_io::sink::Sink;
use edge_io::whole::WriteFault;
use output_lines::{Field, put_line};
use plan_fitting::FitFault;
use plan_texts::PlanFault;
use status_fitting::register_texts::StatusFault;

/// Puts the line of a text that is no plan.
pub fn put_plan_fault<O: Sink>(out: &mut O, fault: &PlanFault) -> Result<(), WriteFault>
    ensures { Puts O.given O.faults out.old out.new (lines.plan_line fault.now) result }
{
    match fault {
        PlanFault::PlanLine { line } => put_place(out, b"PlanLine", *line),
        PlanFault::PlanTwice { word } => put_named(out, b"PlanTwice", word.as_bytes()),
        PlanFault::PlanOpcode { word } => put_named(out, b"PlanOpcode", word.as_bytes()),
        PlanFault::PlanIdcode => put_line(out, &Field::Word(b"PlanIdcode"), &[]),
        PlanFault::PlanUsercode => put_line(out, &Field::Word(b"PlanUsercode"), &[]),
        PlanFault::PlanInstruction { word } => put_named(out, b"PlanInstruction", word.as_bytes()),
        PlanFault::OutOfMemory => put_memory(out),
    }
}

/// Puts the line of a plan that doesn't fit a netlist.
pub fn put_fit_fault<O: Sink>(out: &mut O, fault: &FitFault) -> Result<(), WriteFault>
    ensures { Puts O.given O.faults out.old out.new (lines.fit_line fault.now) result }
{
    match fault {
        FitFault::PlanPort { word } => put_named(out, b"PlanPort", word.as_bytes()),
        FitFault::PlanPortMissing { word } => put_named(out, b"PlanPortMissing", word.as_bytes()),
        FitFault::PlanTwice { word } => put_named(out, b"PlanTwice", word.as_bytes()),
        FitFault::PlanCell { word } => put_named(out, b"PlanCell", word.as_bytes()),
        FitFault::PlanName { word } => put_named(out, b"PlanName", word.as_bytes()),
        FitFault::PrefixTaken { word } => put_named(out, b"PrefixTaken", word.as_bytes()),
        FitFault::OutOfMemory => put_memory(out),
    }
}

/// Puts the line of a text that is none of registers, or of registers that don't fit a plan and a netlist.
pub fn put_registers_fault<O: Sink>(out: &mut O, fault: &StatusFault) -> Result<(), WriteFault>
    ensures { Puts O.given O.faults out.old out.new (lines.registers_line fault.now) result }
{
    match fault {
        StatusFault::StatusLine { line } => put_place(out, b"StatusLine", *line),
        StatusFault::StatusName { word } => put_named(out, b"StatusName", word.as_bytes()),
        StatusFault::StatusNet { word } => put_named(out, b"StatusNet", word.as_bytes()),
        StatusFault::StatusOpcode { word } => put_named(out, b"StatusOpcode", word.as_bytes()),
        StatusFault::OutOfMemory => put_memory(out),
    }
}
