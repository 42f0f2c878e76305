// Ports and wires.
ghost use Rattle.std.specs.Prelude.{◌≡◌, ◌++◌, OnOk, codes};
ghost use Rattle.std.specs.List.{flat_map};
ghost use Rattle.verilog_tree.specs.WrittenWords as words;
ghost use Rattle.verilog_tree.specs.Canonical as text_of;

use crate::printing::names::{put_name, put_number};
use texts::{OutOfMemory, Text};
use verilog_lexicon::Reserved;
use verilog_tree::{Dir, Port, Range, Wire};

/// Adds a range and a blank, where there is a range.
fn put_range(text: &mut Text, range: Option<Range>) -> Result<(), OutOfMemory>
    ensures { OnOk result (text.new ≡ text.old ++ text_of.ranged_text range) }
{
    let Some(Range { left, right }) = range else {
        return Ok(());
    };
    text.push(b'[')?;
    put_number(text, left)?;
    text.push(b':')?;
    put_number(text, right)?;
    text.append(b"] ")
}

fn key_of_dir(dir: Dir) -> Reserved
    ensures { result ≡ words.key_of_dir dir }
{
    match dir {
        Dir::Input => Reserved::Input,
        Dir::Output => Reserved::Output,
        Dir::Inout => Reserved::Inout,
    }
}

fn put_port(text: &mut Text, port: &Port) -> Result<(), OutOfMemory>
    ensures { OnOk result (text.new ≡ text.old ++ text_of.port_text port.now) }
{
    text.append(b"  ")?;
    text.append(key_of_dir(port.dir).spelling())?;
    text.push(b' ')?;
    put_range(text, port.range)?;
    put_name(text, port.name.as_bytes())
}

fn put_more_ports(text: &mut Text, ports: &[Port]) -> Result<(), OutOfMemory>
    ensures { OnOk result (text.new ≡ text.old
        ++ text_of.each_after (codes ",\n") text_of.port_text ports.now) }
{
    for port in ports {
        text.append(b",\n")?;
        put_port(text, port)?;
    }
    Ok(())
}

/// Adds the header's parentheses with the ports, each on a line of its own.
pub fn put_ports(text: &mut Text, ports: &[Port]) -> Result<(), OutOfMemory>
    ensures { OnOk result (text.new ≡ text.old ++ text_of.ports_text ports.now) }
{
    match ports {
        [] => text.append(b"();\n"),
        [first, more @ ..] => {
            text.append(b"(\n")?;
            put_port(text, first)?;
            put_more_ports(text, more)?;
            text.append(b"\n);\n")
        }
    }
}

fn put_wire(text: &mut Text, wire: &Wire) -> Result<(), OutOfMemory>
    ensures { OnOk result (text.new ≡ text.old ++ text_of.wire_text wire.now) }
{
    text.append(b"  wire ")?;
    put_range(text, wire.range)?;
    put_name(text, wire.name.as_bytes())?;
    text.append(b";\n")
}

/// Adds the wires, each on a line of its own.
pub fn put_wires(text: &mut Text, wires: &[Wire]) -> Result<(), OutOfMemory>
    ensures { OnOk result (text.new ≡ text.old ++ flat_map text_of.wire_text wires.now) }
{
    for wire in wires {
        put_wire(text, wire)?;
    }
    Ok(())
}
