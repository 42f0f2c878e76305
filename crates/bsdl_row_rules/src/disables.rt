// Control cells that rows disable by different values.
ghost use Rattle.std.specs.Prelude.{◌≡◌, IfOk, nat_eq};
ghost use Rattle.std.specs.List.{filter_map, list_any};
ghost use Rattle.bsdl_device.specs.Checks as rule;
ghost use Rattle.bsdl_device.specs.RowRules as row_rule;
ghost use Rattle.bsdl_row_rules.specs.Controls as known;

use crate::numbers::{has_number, number_set};
use bsdl_device::RowEntry;
use indexmap::IndexSet;
use std::alloc::Global;
use texts::OutOfMemory;

fn control_by(value: bool, row: &RowEntry) -> Option<u32>
    ensures { result ≡ known.control_by value row.now }
{
    match row.disable {
        None => None,
        Some(disable) => {
            if disable.value == value {
                Some(disable.control)
            } else {
                None
            }
        }
    }
}

// The control cells that rows disable by this value.
fn controls_by(alloc: Global, rows: &[RowEntry], value: bool) -> Result<Vec<u32>, OutOfMemory>
    ensures { IfOk result (λ numbers. numbers.items ≡ filter_map (known.control_by value) rows.now) }
{
    let numbers = rows
        .iter()
        .filter_map(|row| control_by(value, row))
        .collect(alloc)?;
    Ok(numbers)
}

fn has_some(set: &IndexSet<u32>, numbers: &[u32]) -> bool
    ensures { result ≡ list_any (λ n. list_any (nat_eq n) set.now.keys) numbers.now }
{
    numbers.iter().any(|number| has_number(set, *number))
}

/// Two rows give one control cell different disable values.
pub fn some_disagree(alloc: Global, rows: &[RowEntry]) -> Result<bool, OutOfMemory>
    ensures { IfOk result (λ disagree. disagree ≡ rule.any_pair row_rule.rows_disagree rows.now) }
{
    let zeros = controls_by(alloc, rows, false)?;
    let ones = controls_by(alloc, rows, true)?;
    let set = number_set(alloc, &zeros)?;
    Ok(has_some(&set, &ones))
}
