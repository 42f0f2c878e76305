// Gates, instances and continuous assignments.
ghost use Rattle.std.specs.Prelude.{◌≡◌, ◌++◌, OnOk, codes};
ghost use Rattle.std.specs.List.{flat_map};
ghost use Rattle.verilog_tree.specs.WrittenWords as words;
ghost use Rattle.verilog_tree.specs.Canonical as text_of;

use crate::printing::names::{put_name, put_number};
use texts::{OutOfMemory, Text};
use verilog_lexicon::Reserved;
use verilog_tree::{Bit, Gate, GateKind, Instance, Item, Link, Operand};

fn put_bit(text: &mut Text, bit: &Bit) -> Result<(), OutOfMemory>
    ensures { OnOk result (text.new ≡ text.old ++ text_of.bit_text bit.now) }
{
    put_name(text, bit.net.as_bytes())?;
    let Some(index) = bit.index else {
        return Ok(());
    };
    text.push(b'[')?;
    put_number(text, index)?;
    text.push(b']')
}

fn put_operand(text: &mut Text, operand: &Operand) -> Result<(), OutOfMemory>
    ensures { OnOk result (text.new ≡ text.old ++ text_of.operand_text operand.now) }
{
    match operand {
        Operand::Bit(bit) => put_bit(text, bit),
        Operand::Const(false) => text.append(b"1'b0"),
        Operand::Const(true) => text.append(b"1'b1"),
    }
}

fn put_inputs(text: &mut Text, inputs: &[Operand]) -> Result<(), OutOfMemory>
    ensures { OnOk result (text.new ≡ text.old
        ++ text_of.each_after (codes ", ") text_of.operand_text inputs.now) }
{
    for input in inputs {
        text.append(b", ")?;
        put_operand(text, input)?;
    }
    Ok(())
}

fn key_of_gate(kind: GateKind) -> Reserved
    ensures { result ≡ words.key_of_gate kind }
{
    match kind {
        GateKind::And => Reserved::And,
        GateKind::Or => Reserved::Or,
        GateKind::Nand => Reserved::Nand,
        GateKind::Nor => Reserved::Nor,
        GateKind::Xor => Reserved::Xor,
        GateKind::Xnor => Reserved::Xnor,
        GateKind::Buf => Reserved::Buf,
        GateKind::Not => Reserved::Not,
        GateKind::Bufif0 => Reserved::Bufif0,
        GateKind::Bufif1 => Reserved::Bufif1,
    }
}

fn put_gate(text: &mut Text, gate: &Gate) -> Result<(), OutOfMemory>
    ensures { OnOk result (text.new ≡ text.old ++ text_of.gate_text gate.now) }
{
    text.append(b"  ")?;
    text.append(key_of_gate(gate.kind).spelling())?;
    text.push(b' ')?;
    if let Some(name) = &gate.name {
        put_name(text, name.as_bytes())?;
        text.push(b' ')?;
    }
    text.push(b'(')?;
    put_bit(text, &gate.output)?;
    put_inputs(text, gate.inputs.as_slice())?;
    text.append(b");\n")
}

fn put_link(text: &mut Text, link: &Link) -> Result<(), OutOfMemory>
    ensures { OnOk result (text.new ≡ text.old ++ text_of.link_text link.now) }
{
    text.push(b'.')?;
    put_name(text, link.port.as_bytes())?;
    text.push(b'(')?;
    if let Some(operand) = &link.operand {
        put_operand(text, operand)?;
    }
    text.push(b')')
}

fn put_more_links(text: &mut Text, links: &[Link]) -> Result<(), OutOfMemory>
    ensures { OnOk result (text.new ≡ text.old
        ++ text_of.each_after (codes ", ") text_of.link_text links.now) }
{
    for link in links {
        text.append(b", ")?;
        put_link(text, link)?;
    }
    Ok(())
}

fn put_links(text: &mut Text, links: &[Link]) -> Result<(), OutOfMemory>
    ensures { OnOk result (text.new ≡ text.old ++ text_of.links_text links.now) }
{
    let [first, more @ ..] = links else {
        return Ok(());
    };
    put_link(text, first)?;
    put_more_links(text, more)
}

fn put_instance(text: &mut Text, instance: &Instance) -> Result<(), OutOfMemory>
    ensures { OnOk result (text.new ≡ text.old ++ text_of.instance_text instance.now) }
{
    text.append(b"  ")?;
    put_name(text, instance.cell.as_bytes())?;
    text.push(b' ')?;
    put_name(text, instance.name.as_bytes())?;
    text.append(b" (")?;
    put_links(text, instance.links.as_slice())?;
    text.append(b");\n")
}

fn put_assign(text: &mut Text, output: &Bit, input: &Operand) -> Result<(), OutOfMemory>
    ensures { OnOk result (text.new ≡ text.old ++ text_of.assign_text output.now input.now) }
{
    text.append(b"  assign ")?;
    put_bit(text, output)?;
    text.append(b" = ")?;
    put_operand(text, input)?;
    text.append(b";\n")
}

fn put_item(text: &mut Text, item: &Item) -> Result<(), OutOfMemory>
    ensures { OnOk result (text.new ≡ text.old ++ text_of.item_text item.now) }
{
    match item {
        Item::Gate(gate) => put_gate(text, gate),
        Item::Instance(instance) => put_instance(text, instance),
        Item::Assign { output, input } => put_assign(text, output, input),
    }
}

/// Adds the items, each on a line of its own.
pub fn put_items(text: &mut Text, items: &[Item]) -> Result<(), OutOfMemory>
    ensures { OnOk result (text.new ≡ text.old ++ flat_map text_of.item_text items.now) }
{
    for item in items {
        put_item(text, item)?;
    }
    Ok(())
}
