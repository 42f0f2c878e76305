ghost use Rattle.std.specs.Prelude.{◌≡◌};
ghost use Rattle.output_lines.specs.Puts.{Puts};
ghost use Rattle.bsdl_device.specs.declared.fault.DeviceTextFault.TheVariants as fault;
ghost use Rattle.command_faults.specs.Lines as lines;
ghost use Rattle.command_faults.specs.Words as words;

// Lines of the faults of texts.

use bsdl_device::{DeviceTextFault, MeaningKind};
use bsdl_values::register_texts::ExtendedTextFault;
use edge_io::sink::Sink;
use edge_io::whole::WriteFault;
use netlist_model::What;
use output_lines::{Field, put_line};
use scan_vectors::EventFault;
use scan_vectors::scripts::ScriptFault;
use verilog_texts::TextFault;

/// Puts the line that tells that memory was refused.
pub fn put_memory<O: Sink>(out: &mut O) -> Result<(), WriteFault>
    ensures { Puts O.given O.faults out.old out.new lines.memory_line result }
{
    put_line(out, &Field::Word(b"OutOfMemory"), &[])
}

/// Puts the line of a place that can't stand, by its offset or the number of its line.
pub fn put_place<O: Sink>(out: &mut O, fault: &[u8], place: u64) -> Result<(), WriteFault>
    ensures { Puts O.given O.faults out.old out.new (lines.place_line fault.now place) result }
{
    put_line(out, &Field::Word(fault), &[Field::Number(place)])
}

// The line of a word that can't stand, by its offset and its number.
fn put_word<O: Sink>(out: &mut O, fault: &[u8], place: u64, word: u64) -> Result<(), WriteFault>
    ensures { Puts O.given O.faults out.old out.new (lines.word_line fault.now place word) result }
{
    put_line(
        out,
        &Field::Word(fault),
        &[Field::Number(place), Field::Number(word)],
    )
}

/// Puts what there is too many of, how many there are, and how many there may be.
pub fn put_many<O: Sink>(out: &mut O, what: What, count: u64, limit: u64) -> Result<(), WriteFault>
    ensures { Puts O.given O.faults out.old out.new
        (lines.many_line (words.what_word what) count limit) result }
{
    put_count(out, what_word(what), count, limit)
}

/// Puts a word for what there is too many of, how many there are, and how many there may be.
pub fn put_count<O: Sink>(
    out: &mut O,
    what: &[u8],
    count: u64,
    limit: u64,
) -> Result<(), WriteFault>
    ensures { Puts O.given O.faults out.old out.new (lines.many_line what.now count limit) result }
{
    let fields = [
        Field::Word(what),
        Field::Number(count),
        Field::Number(limit),
    ];
    put_line(out, &Field::Word(b"TooMany"), &fields)
}

fn what_word(what: What) -> &'static [u8]
    ensures { result.now ≡ words.what_word what }
{
    match what {
        What::Cells => b"cells",
        What::Nets => b"nets",
        What::Ports => b"ports",
        What::Operands => b"operands",
        What::Lines => b"lines",
    }
}

fn kind_word(kind: MeaningKind) -> &'static [u8]
    ensures { result.now ≡ words.kind_word kind }
{
    match kind {
        MeaningKind::Name => b"Name",
        MeaningKind::PinMap => b"PinMap",
        MeaningKind::Tap => b"Tap",
        MeaningKind::Length => b"Length",
        MeaningKind::Opcode => b"Opcode",
        MeaningKind::Capture => b"Capture",
        MeaningKind::Idcode => b"Idcode",
        MeaningKind::Usercode => b"Usercode",
        MeaningKind::Register => b"Register",
        MeaningKind::Boundary => b"Boundary",
        MeaningKind::Row => b"Row",
        MeaningKind::Ports => b"Ports",
    }
}

/// Puts the line of a text that is no module.
pub fn put_text_fault<O: Sink>(out: &mut O, fault: &TextFault) -> Result<(), WriteFault>
    ensures { Puts O.given O.faults out.old out.new (lines.text_line fault.now) result }
{
    match fault {
        TextFault::BadWord { place } => put_place(out, b"BadWord", *place),
        TextFault::BadSyntax { place, word } => put_word(out, b"BadSyntax", *place, *word),
        TextFault::OutOfMemory => put_memory(out),
    }
}

/// Puts the line of a text that is none of events.
pub fn put_event_fault<O: Sink>(out: &mut O, fault: &EventFault) -> Result<(), WriteFault>
    ensures { Puts O.given O.faults out.old out.new (lines.event_line fault.now) result }
{
    match fault {
        EventFault::EventLine { line } => put_place(out, b"EventLine", *line),
        EventFault::TooMany { what, count, limit } => put_many(out, *what, *count, *limit),
        EventFault::OutOfMemory => put_memory(out),
    }
}

/// Puts the line of event lines that aren't legal for a netlist.
pub fn put_script_fault<O: Sink>(out: &mut O, fault: &ScriptFault) -> Result<(), WriteFault>
    ensures { Puts O.given O.faults out.old out.new (lines.script_line fault.now) result }
{
    match fault {
        ScriptFault::EventIllegal { line } => put_place(out, b"EventIllegal", *line),
        ScriptFault::OutOfMemory => put_memory(out),
    }
}

// The line of a rule that is broken, with the place of its section.
fn put_meaning<O: Sink>(out: &mut O, kind: MeaningKind, place: u64) -> Result<(), WriteFault>
    ensures { Puts O.given O.faults out.old out.new
        (lines.device_line (fault.BsdlMeaning kind place)) result }
{
    let fields = [Field::Word(kind_word(kind)), Field::Number(place)];
    put_line(out, &Field::Word(b"BsdlMeaning"), &fields)
}

/// Puts the line of a text that is no device.
pub fn put_device_fault<O: Sink>(out: &mut O, fault: &DeviceTextFault) -> Result<(), WriteFault>
    ensures { Puts O.given O.faults out.old out.new (lines.device_line fault.now) result }
{
    match fault {
        DeviceTextFault::BsdlWord { place } => put_place(out, b"BsdlWord", *place),
        DeviceTextFault::BsdlSyntax { place, word } => put_word(out, b"BsdlSyntax", *place, *word),
        DeviceTextFault::BsdlMeaning { kind, place } => put_meaning(out, *kind, *place),
        DeviceTextFault::OutOfMemory => put_memory(out),
    }
}

/// Puts the line of a text that is no device with registers of its own.
pub fn put_extended_fault<O: Sink>(out: &mut O, fault: &ExtendedTextFault) -> Result<(), WriteFault>
    ensures { Puts O.given O.faults out.old out.new (lines.extended_line fault.now) result }
{
    match fault {
        ExtendedTextFault::BsdlWord { place } => put_place(out, b"BsdlWord", *place),
        ExtendedTextFault::BsdlSyntax { place, word } => {
            put_word(out, b"BsdlSyntax", *place, *word)
        }
        ExtendedTextFault::BsdlMeaning { kind, place } => put_meaning(out, *kind, *place),
        ExtendedTextFault::BsdlExtra { place } => put_place(out, b"BsdlExtra", *place),
        ExtendedTextFault::OutOfMemory => put_memory(out),
    }
}
