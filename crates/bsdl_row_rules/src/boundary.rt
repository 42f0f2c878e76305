// Rules on the numbers of the boundary register's rows.
ghost use Rattle.std.specs.Prelude.{◌≡◌, ◌==◌, IfOk, map, nat_eq, nat_lt, not};
ghost use Rattle.std.specs.List.{list_any};
ghost use Rattle.bsdl_device.specs.Ports.{counted_from};
ghost use Rattle.bsdl_device.specs.Checks as rule;

use crate::numbers::{has_number, number_set};
use bsdl_device::{Contents, File, RowEntry};
use bsdl_port_rules::comes_twice;
use indexmap::IndexSet;
use std::alloc::Global;
use texts::OutOfMemory;

/// The numbers of rows, in the order in which the rows are written.
pub fn row_numbers(alloc: Global, rows: &[RowEntry]) -> Result<Vec<u32>, OutOfMemory>
    ensures { IfOk result (λ numbers. numbers.items ≡ map (λ r. r.number) rows.now) }
{
    let numbers = rows.iter().map(|row| row.number).collect(alloc)?;
    Ok(numbers)
}

fn some_outside(count: u32, rows: &[RowEntry]) -> bool
    ensures { result ≡ list_any (λ r. not (nat_lt r.number count)) rows.now }
{
    rows.iter().any(|row| !(row.number < count))
}

#[tactic(auto, using(crate::proofs::Sets::row_number_twice))]
fn some_number_twice(alloc: Global, rows: &[RowEntry]) -> Result<bool, OutOfMemory>
    ensures { IfOk result (λ twice. twice ≡ rule.any_pair (λ r s. r.number == s.number) rows.now) }
{
    let numbers = row_numbers(alloc, rows)?;
    comes_twice(alloc, &numbers)
}

fn lacks_number(count: u32, set: &IndexSet<u32>) -> bool
    ensures { result ≡ list_any (λ n. not (list_any (nat_eq n) set.now.keys)) (counted_from 0 count) }
{
    for number in 0..count {
        if !has_number(set, number) {
            return true;
        }
    }
    false
}

fn misses_number(alloc: Global, count: u32, numbers: &[u32]) -> Result<bool, OutOfMemory>
    ensures { IfOk result (λ misses. misses ≡ list_any (λ n. not (list_any (nat_eq n) numbers.now))
        (counted_from 0 count)) }
{
    let set = number_set(alloc, numbers)?;
    Ok(lacks_number(count, &set))
}

fn some_number_missing(alloc: Global, count: u32, rows: &[RowEntry]) -> Result<bool, OutOfMemory>
    ensures { IfOk result (λ misses. misses ≡ list_any
        (λ number. not (list_any (rule.is_numbered number) rows.now)) (counted_from 0 count)) }
{
    let numbers = row_numbers(alloc, rows)?;
    let misses = misses_number(alloc, count, &numbers)?;
    Ok(misses)
}

/// The rows aren't numbered from 0 to the length less one, or the length is 0.
pub fn boundary_fails(alloc: Global, file: &File, contents: &Contents) -> Result<bool, OutOfMemory>
    ensures { IfOk result (λ fails. fails ≡ rule.boundary_fails file.now contents.now) }
{
    let count = file.boundary_length.value;
    let rows = contents.rows.as_slice();
    if count == 0 || rows.len() != count as usize {
        return Ok(true);
    }
    let twice = some_number_twice(alloc, rows)?;
    let misses = some_number_missing(alloc, count, rows)?;
    Ok(some_outside(count, rows) || twice || misses)
}
