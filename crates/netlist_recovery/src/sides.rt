// The nets between the core and its boundary cells, read from the gates of the register.
ghost use Rattle.std.specs.Prelude.{◌≡◌, ◌++◌, ◌<◌, ◌≤◌, [], IfOk, OnOk, Some, length, take, option_and_then, reverse, slice_get};
ghost use Rattle.boundary_cells.specs.Cells as cells;
ghost use Rattle.boundary_cells.specs.ThreeState as three;
ghost use Rattle.strip_model.specs.Sides as model;

use crate::copies::{copy_bit, copy_operand};
use bsdl_device::CellRow;
use cell_library::{BoundaryKind, Function};
use std::alloc::Global;
use strip_model::{Side, Stand};
use texts::{OutOfMemory, Row};
use verilog_tree::{Bit, Item, Link, Operand};

// What a link is connected to.
fn linked(alloc: Global, link: &Link) -> Result<Option<Operand>, OutOfMemory>
    ensures { IfOk result (λ operand. operand ≡ link.now.operand) }
{
    match &link.operand {
        Some(operand) => Ok(Some(copy_operand(alloc, operand)?)),
        None => Ok(None),
    }
}

// The operand of a link of an instance, by its place.
fn linked_at(alloc: Global, item: &Item, place: usize) -> Result<Option<Operand>, OutOfMemory>
    ensures { IfOk result (λ operand. operand ≡ model.linked_at place item.now) }
{
    match item {
        Item::Instance(instance) => match instance.links.as_slice().get(place) {
            Some(link) => linked(alloc, link),
            None => Ok(None),
        },
        Item::Gate(_) => Ok(None),
        Item::Assign { .. } => Ok(None),
    }
}

// The operand of a link of the item so many places before the last.
fn linked_before(
    alloc: Global,
    items: &[Item],
    back: usize,
    place: usize,
) -> Result<Option<Operand>, OutOfMemory>
    requires { back < 2 }
    ensures { IfOk result (λ operand. operand
        ≡ option_and_then (model.linked_at place) (slice_get (reverse items.now) back)) }
{
    match items.len().checked_sub(back + 1) {
        Some(at) => linked_at(alloc, &items[at], place),
        None => Ok(None),
    }
}

// What the last item drives, if it is a gate.
fn driven_by_last(alloc: Global, items: &[Item]) -> Result<Option<Operand>, OutOfMemory>
    ensures { IfOk result (λ operand. operand ≡ model.driven_by (slice_get (reverse items.now) 0)) }
{
    match items.last() {
        Some(Item::Gate(gate)) => Ok(Some(Operand::Bit(copy_bit(alloc, &gate.output)?))),
        Some(Item::Instance(_)) => Ok(None),
        Some(Item::Assign { .. }) => Ok(None),
        None => Ok(None),
    }
}

// The net, and what the core had in its place.
fn side_of(net: Option<Operand>, core: Option<Operand>) -> Option<Side>
    ensures { result ≡ model.side_of net core }
{
    let (Some(net), Some(core)) = (net, core) else {
        return None;
    };
    match net {
        Operand::Bit(Bit { net, index: None }) => Some(Side { net, core }),
        Operand::Bit(_) => None,
        Operand::Const(_) => None,
    }
}

fn stand_with(count: usize, side: Option<Side>) -> Option<Stand>
    ensures { result ≡ model.stand_with count side }
{
    match side {
        Some(side) => Some(Stand {
            side: Some(side),
            count,
        }),
        None => None,
    }
}

// How many gates a BC_1 or a BC_2 has before its last multiplexer.
fn stage_count(cell: BoundaryKind) -> usize
    ensures { result ≡ cells.stage_count cell }
{
    match cell {
        BoundaryKind::Bc2 => 6,
        _ => 5,
    }
}

fn control_count(cell: BoundaryKind) -> usize
    ensures { result ≡ three.control_count cell }
{
    match cell {
        BoundaryKind::Bc2 => 7,
        _ => 6,
    }
}

// What the last item gives, and what it takes where it isn't selected.
fn given_stand(
    alloc: Global,
    items: &[Item],
    count: usize,
    back: usize,
) -> Result<Option<Stand>, OutOfMemory>
    requires { back < 2 }
    ensures { IfOk result (λ stand. stand ≡ model.stand_with count
        (model.side_of (model.output_at 0 (reverse items.now)) (model.usual_at back (reverse items.now)))) }
{
    let net = linked_before(alloc, items, 0, 3)?;
    let core = linked_before(alloc, items, back, 0)?;
    Ok(stand_with(count, side_of(net, core)))
}

fn input_stand(
    alloc: Global,
    cell: BoundaryKind,
    items: &[Item],
) -> Result<Option<Stand>, OutOfMemory>
    ensures { IfOk result (λ stand. stand ≡ model.input_stand cell (reverse items.now)) }
{
    match cell {
        BoundaryKind::Bc1 => given_stand(alloc, items, 6, 0),
        _ => Ok(Some(Stand {
            side: None,
            count: 3,
        })),
    }
}

fn output_stand(
    alloc: Global,
    cell: BoundaryKind,
    items: &[Item],
) -> Result<Option<Stand>, OutOfMemory>
    ensures { IfOk result (λ stand. stand ≡ model.output_stand cell (reverse items.now)
        (model.driven_by (slice_get (reverse items.now) 0))) }
{
    match driven_by_last(alloc, items)? {
        None => given_stand(alloc, items, stage_count(cell) + 1, 0),
        Some(pin) => {
            let net = linked_before(alloc, items, 1, 0)?;
            Ok(stand_with(stage_count(cell) + 2, side_of(net, Some(pin))))
        }
    }
}

fn two_state_stand(
    alloc: Global,
    cell: BoundaryKind,
    items: &[Item],
) -> Result<Option<Stand>, OutOfMemory>
    ensures { IfOk result (λ stand. stand ≡ model.stand_at Function.Output2 cell (reverse items.now)) }
{
    let net = linked_before(alloc, items, 0, 0)?;
    let core = linked_before(alloc, items, 0, 3)?;
    Ok(stand_with(stage_count(cell) + 1, side_of(net, core)))
}

// What stands at a row, whose gates are the last of these.
fn stand_at(alloc: Global, row: &CellRow, items: &[Item]) -> Result<Option<Stand>, OutOfMemory>
    ensures { IfOk result (λ stand. stand ≡ model.stand_at row.now.function row.now.cell (reverse items.now)) }
{
    match row.function {
        Function::Input => input_stand(alloc, row.cell, items),
        Function::Clock => input_stand(alloc, row.cell, items),
        Function::Output2 => two_state_stand(alloc, row.cell, items),
        Function::Output3 => output_stand(alloc, row.cell, items),
        Function::Bidir => given_stand(alloc, items, 8, 0),
        Function::Control => given_stand(alloc, items, control_count(row.cell) + 1, 1),
    }
}

fn row_at(rows: &[CellRow], number: usize) -> CellRow
    requires { number < length rows.now }
    ensures { slice_get rows.now number ≡ Some result }
{
    rows[number]
}

// The first so many items.
fn front(items: &[Item], left: usize) -> &[Item]
    requires { left ≤ length items.now }
    ensures { result.now ≡ take left items.now }
{
    &items[..left]
}

// Adds a side, if there is one.
fn push_side(found: &mut Row<Side>, side: Option<Side>) -> Result<(), OutOfMemory>
    ensures { OnOk result (found.new ≡ found.old ++ model.with_side side []) }
{
    match side {
        Some(side) => found.push(side),
        None => Ok(()),
    }
}

// The nets between the core and these rows, whose gates are the last of these items, the first row last; none where a
// gate isn't what it should be.
fn sides_before(
    alloc: Global,
    rows: &[CellRow],
    items: &[Item],
) -> Result<Option<Row<Side>>, OutOfMemory>
    ensures { IfOk result (λ found. found ≡ model.sides_in rows.now (reverse items.now)) }
{
    let mut found = Row::new(alloc);
    let mut left = items.len();
    for number in 0..rows.len() {
        let row = row_at(rows, number);
        match stand_at(alloc, &row, front(items, left))? {
            Some(stand) => {
                left = left.saturating_sub(stand.count);
                push_side(&mut found, stand.side)?;
            }
            None => return Ok(None),
        }
    }
    Ok(Some(found))
}

// How many gates TDO has.
const TDO_GATES: usize = 7;

/// The nets between the core and these rows, whose gates stand before TDO's, the first row last.
pub fn sides(
    alloc: Global,
    rows: &[CellRow],
    items: &[Item],
) -> Result<Option<Row<Side>>, OutOfMemory>
    ensures { IfOk result (λ found. found ≡ model.sides rows.now items.now) }
{
    let left = items.len().saturating_sub(TDO_GATES);
    sides_before(alloc, rows, front(items, left))
}
