// The assigns that stand in place of a link.
ghost use Rattle.std.specs.Prelude.{◌≡◌, ◌<◌, ◌++◌, length, slice_get, Some, IfOk, OnOk};
ghost use Rattle.box_model.specs.Ports.{bits_of};
ghost use Rattle.box_model.specs.Opened.{link_bits, assign_by, assigns};
ghost use Rattle.box_trees.specs.Opening as opening;

use box_model::{BoxDir, BoxPort};
use box_tables::{Declarations, bit_at, copy_of_operand, is_narrow};
use link_model::width_of;
use std::alloc::Global;
use texts::{OutOfMemory, Row};
use verilog_tree::{Bit, Item, Operand, Range};

// The range of the vector that a link is; none where it is a bit or a constant, or names no net.
fn whole_range(nets: &Declarations<'_>, port: &BoxPort, operand: &Operand) -> Option<Option<Range>>
    ensures { result ≡ opening.whole_range nets.now port.now operand.now }
{
    let Operand::Bit(bit) = operand else {
        return None;
    };
    if is_narrow(port) {
        return None;
    }
    nets.range(bit.net.as_bytes())
}

// How many operands a link gives for the bits of a port.
fn bit_count(nets: &Declarations<'_>, port: &BoxPort, operand: &Operand) -> u64
    ensures { result ≡ length (link_bits nets.now port.now operand.now) }
{
    match whole_range(nets, port, operand) {
        Some(range) => width_of(range),
        None => 1,
    }
}

// The operand of a port's bit: the link's own at a port of one bit, else the bit of the whole vector.
fn operand_at(
    alloc: Global,
    nets: &Declarations<'_>,
    port: &BoxPort,
    operand: &Operand,
    place: u64,
) -> Result<Operand, OutOfMemory>
    requires { place < length (link_bits nets.now port.now operand.now) }
    ensures { IfOk result (λ made. slice_get (link_bits nets.now port.now operand.now) place ≡ Some made) }
{
    let Some(range) = whole_range(nets, port, operand) else {
        return copy_of_operand(alloc, operand);
    };
    match operand {
        Operand::Bit(bit) => {
            let bit = bit_at(alloc, bit.net.as_bytes(), range, place)?;
            Ok(Operand::Bit(bit))
        }
        Operand::Const(value) => Ok(Operand::Const(*value)),
    }
}

// Adds the assign of a bit that takes or gives, beside an operand.
fn push_assign(
    dir: BoxDir,
    hidden: Bit,
    other: Operand,
    items: &mut Row<Item>,
) -> Result<(), OutOfMemory>
    ensures { OnOk result (items.new ≡ items.old ++ assign_by dir hidden other) }
{
    match (dir, other) {
        (BoxDir::Takes, input) => items.push(Item::Assign {
            output: hidden,
            input,
        }),
        (BoxDir::Gives, Operand::Bit(output)) => items.push(Item::Assign {
            output,
            input: Operand::Bit(hidden),
        }),
        (BoxDir::Gives, Operand::Const(_)) => Ok(()),
    }
}

/// Adds the assigns of the bits of a port with this hidden name.
pub(crate) fn push_assigns(
    alloc: Global,
    nets: &Declarations<'_>,
    hidden: &[u8],
    port: &BoxPort,
    operand: &Operand,
    items: &mut Row<Item>,
) -> Result<(), OutOfMemory>
    ensures { OnOk result (items.new ≡ items.old ++ opening.assigns_of nets.now hidden.now port.now operand.now) }
{
    let count = width_of(port.range).min(bit_count(nets, port, operand));
    for place in 0..count {
        let bit = bit_at(alloc, hidden, port.range, place)?;
        let other = operand_at(alloc, nets, port, operand, place)?;
        push_assign(port.dir, bit, other, items)?;
    }
    Ok(())
}
