// The parts of a cell, as a tree has them.
ghost use Rattle.std.specs.Prelude.{◌≡◌, ◌<◌, [], map, length, option_map, unwrap_or, IfOk, IsSome};
ghost use Rattle.netlist_model.specs.Lists.{cell_at};
ghost use Rattle.netlist_arena.specs.Looks.{IsLive};
ghost use Rattle.netlist_unlink.specs.Parts.{feeds_of, name_of, output_of};
ghost use Rattle.netlist_unlink.specs.Trees.{cell_text, first_operand, naming_of, operand_of, output_bit};

use crate::names::{bit, operand, spell};
use netlist_link::Linked;
use netlist_model::CellId;
use std::alloc::Global;
use texts::{OutOfMemory, Row, Text};
use verilog_tree::{Bit, Operand};

/// The name of a cell, if it has one.
pub fn cell_name(
    alloc: Global,
    linked: &Linked,
    prefix: &[u8],
    cell: CellId,
) -> Result<Option<Text>, OutOfMemory>
    requires { IsLive linked.now.arena.lists cell.0 }
    ensures { IfOk result (λ name. name ≡ option_map (cell_text (naming_of linked.now prefix.now) cell.0)
        (name_of (cell_at linked.now.arena.lists cell.0))) }
{
    match linked.netlist().cell_name(cell) {
        Some(name) => Ok(Some(spell(alloc, linked, prefix, b'c', cell.0, name)?)),
        None => Ok(None),
    }
}

/// The name of a cell that has one.
pub fn instance_name(
    alloc: Global,
    linked: &Linked,
    prefix: &[u8],
    cell: CellId,
) -> Result<Text, OutOfMemory>
    requires live { IsLive linked.now.arena.lists cell.0 }
    requires named { IsSome (name_of (cell_at linked.now.arena.lists cell.0)) }
    ensures { IfOk result (λ name. name ≡ unwrap_or
        (option_map (cell_text (naming_of linked.now prefix.now) cell.0)
        (name_of (cell_at linked.now.arena.lists cell.0))) []) }
{
    match cell_name(alloc, linked, prefix, cell)? {
        Some(name) => Ok(name),
        None => unreachable!(),
    }
}

/// The bit that a cell drives.
pub fn driven_bit(
    alloc: Global,
    linked: &Linked,
    prefix: &[u8],
    cell: CellId,
) -> Result<Bit, OutOfMemory>
    requires live { IsLive linked.now.arena.lists cell.0 }
    requires driven { IsSome (output_of (cell_at linked.now.arena.lists cell.0)) }
    ensures { IfOk result (λ bit. bit ≡ output_bit (naming_of linked.now prefix.now)
        (output_of (cell_at linked.now.arena.lists cell.0))) }
{
    match linked.netlist().output(cell) {
        Some(net) => bit(alloc, linked, prefix, net),
        None => unreachable!(),
    }
}

/// The operands of a cell, in order.
pub fn cell_inputs(
    alloc: Global,
    linked: &Linked,
    prefix: &[u8],
    cell: CellId,
) -> Result<Row<Operand>, OutOfMemory>
    requires { IsLive linked.now.arena.lists cell.0 }
    ensures { IfOk result (λ inputs. inputs ≡ map (operand_of (naming_of linked.now prefix.now))
        (feeds_of (cell_at linked.now.arena.lists cell.0))) }
{
    let netlist = linked.netlist();
    let mut inputs = Row::new(alloc);
    for place in 0..netlist.feed_count(cell) {
        let feed = netlist.feed(cell, place);
        inputs.push(operand(alloc, linked, prefix, feed)?)?;
    }
    Ok(inputs)
}

/// The first operand of a cell that has one.
pub fn first_input(
    alloc: Global,
    linked: &Linked,
    prefix: &[u8],
    cell: CellId,
) -> Result<Operand, OutOfMemory>
    requires live { IsLive linked.now.arena.lists cell.0 }
    requires reads { 0 < length (feeds_of (cell_at linked.now.arena.lists cell.0)) }
    ensures { IfOk result (λ input. input ≡ first_operand (naming_of linked.now prefix.now)
        (feeds_of (cell_at linked.now.arena.lists cell.0))) }
{
    let feed = linked.netlist().feed(cell, 0);
    operand(alloc, linked, prefix, feed)
}
