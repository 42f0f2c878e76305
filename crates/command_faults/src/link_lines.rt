ghost use Rattle.std.specs.Prelude.{[], ◌∷◌, codes};
ghost use Rattle.output_lines.specs.Puts.{Puts};
ghost use Rattle.std.specs.Fmt.{decimal};
ghost use Rattle.output_lines.specs.Lines.{bit_text, words_line};
ghost use Rattle.command_faults.specs.Lines as lines;

// Lines of the faults of linking.

use crate::text_lines::{put_many, put_memory};
use edge_io::sink::Sink;
use edge_io::whole::WriteFault;
use link_model::{BitName, LinkFault};
use output_lines::{Field, put_line, put_numbers};

/// Puts the line of a fault with one name.
pub fn put_named<O: Sink>(out: &mut O, fault: &[u8], name: &[u8]) -> Result<(), WriteFault>
    ensures { Puts O.given O.faults out.old out.new (lines.named_line fault.now name.now) result }
{
    put_line(out, &Field::Word(fault), &[Field::Word(name)])
}

/// Puts the line of a fault at a bit.
pub fn put_bit<O: Sink>(out: &mut O, fault: &[u8], bit: &BitName) -> Result<(), WriteFault>
    ensures { Puts O.given O.faults out.old out.new (lines.bit_line fault.now bit.now) result }
{
    let field = Field::of_bit(bit.name.as_bytes(), bit.index);
    put_line(out, &Field::Word(fault), &[field])
}

/// Puts the line of a fault of an instance's port.
pub fn put_port<O: Sink>(
    out: &mut O,
    fault: &[u8],
    instance: &[u8],
    port: &[u8],
) -> Result<(), WriteFault>
    ensures { Puts O.given O.faults out.old out.new
        (lines.port_line fault.now instance.now port.now) result }
{
    put_line(
        out,
        &Field::Word(fault),
        &[Field::Word(instance), Field::Word(port)],
    )
}

// The line of an index outside a net's range.
fn put_outside<O: Sink>(out: &mut O, name: &[u8], index: u32) -> Result<(), WriteFault>
    ensures { Puts O.given O.faults out.old out.new
        (words_line (codes "BitOutside") (name.now ∷ decimal index ∷ [])) result }
{
    let fields = [Field::Word(name), Field::Number(u64::from(index))];
    put_line(out, &Field::Word(b"BitOutside"), &fields)
}

// The line of a clock, clear or preset that isn't combinational.
fn put_derived<O: Sink>(out: &mut O, flop: &[u8], net: &BitName) -> Result<(), WriteFault>
    ensures { Puts O.given O.faults out.old out.new
        (words_line (codes "DerivedClock") (flop.now ∷ bit_text net.now.name net.now.index ∷ [])) result }
{
    let fields = [
        Field::Word(flop),
        Field::of_bit(net.name.as_bytes(), net.index),
    ];
    put_line(out, &Field::Word(b"DerivedClock"), &fields)
}

/// Puts the line of a module that is no netlist.
pub fn put_link_fault<O: Sink>(out: &mut O, fault: &LinkFault) -> Result<(), WriteFault>
    ensures { Puts O.given O.faults out.old out.new (lines.link_line fault.now) result }
{
    match fault {
        LinkFault::NameTwice { name } => put_named(out, b"NameTwice", name.as_bytes()),
        LinkFault::NameUnknown { name } => put_named(out, b"NameUnknown", name.as_bytes()),
        LinkFault::BitOutside { name, index } => put_outside(out, name.as_bytes(), *index),
        LinkFault::CellUnknown { name } => put_named(out, b"CellUnknown", name.as_bytes()),
        LinkFault::PortUnknown { instance, port } => put_port(
            out,
            b"PortUnknown",
            instance.as_bytes(),
            port.as_bytes(),
        ),
        LinkFault::PortMissing { instance, port } => put_port(
            out,
            b"PortMissing",
            instance.as_bytes(),
            port.as_bytes(),
        ),
        LinkFault::PortTwice { instance, port } => put_port(
            out,
            b"PortTwice",
            instance.as_bytes(),
            port.as_bytes(),
        ),
        LinkFault::WrongWidth { name } => put_named(out, b"WrongWidth", name.as_bytes()),
        LinkFault::TwoDrivers { bit } => put_bit(out, b"TwoDrivers", bit),
        LinkFault::InputDriven { bit } => put_bit(out, b"InputDriven", bit),
        LinkFault::NotDriven { bit } => put_bit(out, b"NotDriven", bit),
        LinkFault::TristateInside { bit } => put_bit(out, b"TristateInside", bit),
        LinkFault::TristateRead { bit } => put_bit(out, b"TristateRead", bit),
        LinkFault::InoutNotTristate { bit } => put_bit(out, b"InoutNotTristate", bit),
        LinkFault::Loop { numbers } => put_numbers(out, b"Loop", numbers.as_slice()),
        LinkFault::DerivedClock { flop, net } => put_derived(out, flop.as_bytes(), net),
        LinkFault::TooMany { what, count, limit } => put_many(out, *what, *count, *limit),
        LinkFault::OutOfMemory => put_memory(out),
    }
}
