// The names that items have as operand, output or link, and how often.
ghost use Rattle.std.specs.Prelude.{◌≡◌, ◌++◌, ◌∷◌, [], IfOk, OnOk};
ghost use Rattle.std.specs.List.{flat_map};
ghost use Rattle.texts.specs.Repeated.{texts};
ghost use Rattle.box_model.specs.Faults as faults;

use std::alloc::Global;
use texts::OutOfMemory;
use verilog_tree::{Bit, Gate, Instance, Item, Link, Operand};

fn add_bit<'a>(names: &mut Vec<&'a [u8]>, bit: &'a Bit) -> Result<(), OutOfMemory>
    ensures { OnOk result (texts names.new.items ≡ texts names.old.items ++ bit.now.net ∷ []) }
{
    names.push(bit.net.as_bytes())?;
    Ok(())
}

fn add_operand<'a>(names: &mut Vec<&'a [u8]>, operand: &'a Operand) -> Result<(), OutOfMemory>
    ensures { OnOk result (texts names.new.items ≡ texts names.old.items ++ faults.operand_name operand.now) }
{
    match operand {
        Operand::Bit(bit) => add_bit(names, bit),
        Operand::Const(_) => Ok(()),
    }
}

fn add_operands<'a>(names: &mut Vec<&'a [u8]>, operands: &'a [Operand]) -> Result<(), OutOfMemory>
    ensures { OnOk result (texts names.new.items ≡ texts names.old.items ++ flat_map faults.operand_name operands.now) }
{
    for operand in operands {
        add_operand(names, operand)?;
    }
    Ok(())
}

fn add_link<'a>(names: &mut Vec<&'a [u8]>, link: &'a Link) -> Result<(), OutOfMemory>
    ensures { OnOk result (texts names.new.items ≡ texts names.old.items ++ faults.linked_name link.now) }
{
    match &link.operand {
        Some(operand) => add_operand(names, operand),
        None => Ok(()),
    }
}

fn add_links<'a>(names: &mut Vec<&'a [u8]>, links: &'a [Link]) -> Result<(), OutOfMemory>
    ensures { OnOk result (texts names.new.items ≡ texts names.old.items ++ flat_map faults.linked_name links.now) }
{
    for link in links {
        add_link(names, link)?;
    }
    Ok(())
}

fn add_gate<'a>(names: &mut Vec<&'a [u8]>, gate: &'a Gate) -> Result<(), OutOfMemory>
    ensures { OnOk result (texts names.new.items ≡ texts names.old.items ++ faults.named_by (Item.Gate gate.now)) }
{
    add_bit(names, &gate.output)?;
    add_operands(names, gate.inputs.as_slice())
}

fn add_instance<'a>(names: &mut Vec<&'a [u8]>, instance: &'a Instance) -> Result<(), OutOfMemory>
    ensures { OnOk result (texts names.new.items ≡ texts names.old.items ++ faults.named_by (Item.Instance instance.now)) }
{
    add_links(names, instance.links.as_slice())
}

fn add_item<'a>(names: &mut Vec<&'a [u8]>, item: &'a Item) -> Result<(), OutOfMemory>
    ensures { OnOk result (texts names.new.items ≡ texts names.old.items ++ faults.named_by item.now) }
{
    match item {
        Item::Gate(gate) => add_gate(names, gate),
        Item::Instance(instance) => add_instance(names, instance),
        Item::Assign { output, input } => {
            add_bit(names, output)?;
            add_operand(names, input)
        }
    }
}

/// The names that items have as operand, output or link, in order.
pub(crate) fn add_items<'a>(names: &mut Vec<&'a [u8]>, items: &'a [Item]) -> Result<(), OutOfMemory>
    ensures { OnOk result (texts names.new.items ≡ texts names.old.items ++ flat_map faults.named_by items.now) }
{
    for item in items {
        add_item(names, item)?;
    }
    Ok(())
}
