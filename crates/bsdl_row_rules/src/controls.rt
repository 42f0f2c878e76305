// The control cells of a boundary register: those that rows name, and those that are there.
ghost use Rattle.std.specs.Prelude.{◌≡◌, ◌&&◌, IfOk};
ghost use Rattle.std.specs.List.{filter_map, list_any};
ghost use Rattle.bsdl_device.specs.Checks as rule;
ghost use Rattle.bsdl_device.specs.RowRules as row_rule;
ghost use Rattle.bsdl_row_rules.specs.Controls as known;

use crate::numbers::{has_number, number_set};
use crate::row_cells::is_control;
use bsdl_device::RowEntry;
use indexmap::IndexSet;
use std::alloc::Global;
use texts::OutOfMemory;

/// Rows, the numbers that they name as control cells, and the numbers of their control cells.
#[derive(Drop)]
pub struct Controls<'a> {
    pub rows: &'a [RowEntry],
    pub named: IndexSet<u32>,
    pub present: IndexSet<u32>,
}

fn control_in(row: &RowEntry) -> Option<u32>
    ensures { result ≡ known.control_in row.now }
{
    match row.disable {
        None => None,
        Some(disable) => Some(disable.control),
    }
}

fn own_number(row: &RowEntry) -> Option<u32>
    ensures { result ≡ known.own_number row.now }
{
    if is_control(row) {
        Some(row.number)
    } else {
        None
    }
}

fn named_numbers(alloc: Global, rows: &[RowEntry]) -> Result<Vec<u32>, OutOfMemory>
    ensures { IfOk result (λ numbers. numbers.items ≡ filter_map known.control_in rows.now) }
{
    let numbers = rows
        .iter()
        .filter_map(|row| control_in(row))
        .collect(alloc)?;
    Ok(numbers)
}

fn own_numbers(alloc: Global, rows: &[RowEntry]) -> Result<Vec<u32>, OutOfMemory>
    ensures { IfOk result (λ numbers. numbers.items ≡ filter_map known.own_number rows.now) }
{
    let numbers = rows
        .iter()
        .filter_map(|row| own_number(row))
        .collect(alloc)?;
    Ok(numbers)
}

fn controls_at<'a>(
    alloc: Global,
    rows: &'a [RowEntry],
    names: &[u32],
    numbers: &[u32],
) -> Result<Controls<'a>, OutOfMemory>
    requires names { names.now ≡ filter_map known.control_in rows.now }
    requires numbers { numbers.now ≡ filter_map known.own_number rows.now }
    ensures rows { IfOk result (λ made. made.rows.now ≡ rows.now) }
    ensures known { IfOk result (λ made. known.KnowsControls rows.now made.named.keys made.present.keys) }
{
    let named = number_set(alloc, names)?;
    let present = number_set(alloc, numbers)?;
    Ok(Controls {
        rows,
        named,
        present,
    })
}

/// The control cells of rows.
pub fn controls_of<'a>(alloc: Global, rows: &'a [RowEntry]) -> Result<Controls<'a>, OutOfMemory>
    ensures rows { IfOk result (λ made. made.rows.now ≡ rows.now) }
    ensures known { IfOk result (λ made. known.KnowsControls rows.now made.named.keys made.present.keys) }
{
    let names = named_numbers(alloc, rows)?;
    let numbers = own_numbers(alloc, rows)?;
    controls_at(alloc, rows, &names, &numbers)
}

/// Whether a row names this control cell.
pub fn is_named(controls: &Controls, number: u32) -> bool
    requires { known.KnowsControls controls.now.rows.now controls.now.named.keys
        controls.now.present.keys }
    ensures { result ≡ list_any (row_rule.is_disabled_by number) controls.now.rows.now }
{
    has_number(&controls.named, number)
}

/// Whether there is a control cell of this number.
pub fn is_present(controls: &Controls, number: u32) -> bool
    requires { known.KnowsControls controls.now.rows.now controls.now.named.keys
        controls.now.present.keys }
    ensures { result ≡ list_any (λ s. rule.is_numbered number s
        && row_rule.is_control s) controls.now.rows.now }
{
    has_number(&controls.present, number)
}
