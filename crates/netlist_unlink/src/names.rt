// Names, bits and operands.
ghost use Rattle.std.specs.Prelude.{◌≡◌, ◌<◌, length, IfOk};
ghost use Rattle.netlist_model.specs.Below.{IsFeedBelow};
ghost use Rattle.netlist_link.specs.WellNamed.{IsKnown};
ghost use Rattle.netlist_unlink.specs.Trees.{added, bit_of, naming_of, operand_of, spelled};

use itoa::Buffer;
use netlist_link::Linked;
use netlist_model::{Feed, Name, NetId};
use std::alloc::Global;
use texts::{OutOfMemory, Text};
use verilog_tree::{Bit, Operand};

/// The name of an added net or cell.
pub fn added_name(
    alloc: Global,
    prefix: &[u8],
    letter: u8,
    number: u32,
) -> Result<Text, OutOfMemory>
    ensures { IfOk result (λ name. name ≡ added prefix.now letter number) }
{
    let mut name = Text::from_bytes(alloc, prefix)?;
    name.push(letter)?;
    let mut digits = Buffer::new();
    name.append(digits.format(number).as_bytes())?;
    Ok(name)
}

/// The bytes of a name.
pub fn spell(
    alloc: Global,
    linked: &Linked,
    prefix: &[u8],
    letter: u8,
    number: u32,
    name: Name,
) -> Result<Text, OutOfMemory>
    requires { IsKnown linked.now.names name }
    ensures { IfOk result (λ text. text ≡ spelled (naming_of linked.now prefix.now) letter number name) }
{
    match name {
        Name::Original(_) => Text::from_bytes(alloc, linked.name_text(name)),
        Name::Added(_) => added_name(alloc, prefix, letter, number),
    }
}

/// The bit that a net is.
pub fn bit(alloc: Global, linked: &Linked, prefix: &[u8], net: NetId) -> Result<Bit, OutOfMemory>
    requires { net.0 < length linked.now.arena.lists.nets }
    ensures { IfOk result (λ bit. bit ≡ bit_of (naming_of linked.now prefix.now) net) }
{
    let netlist = linked.netlist();
    let name = netlist.net_name(net);
    let index = netlist.net_index(net);
    Ok(Bit {
        net: spell(alloc, linked, prefix, b'n', net.0, name)?,
        index,
    })
}

/// What a cell reads.
pub fn operand(
    alloc: Global,
    linked: &Linked,
    prefix: &[u8],
    feed: Feed,
) -> Result<Operand, OutOfMemory>
    requires { IsFeedBelow (length linked.now.arena.lists.nets) feed }
    ensures { IfOk result (λ operand. operand ≡ operand_of (naming_of linked.now prefix.now) feed) }
{
    match feed {
        Feed::Net(net) => Ok(Operand::Bit(bit(alloc, linked, prefix, net)?)),
        Feed::Const(value) => Ok(Operand::Const(value)),
    }
}
