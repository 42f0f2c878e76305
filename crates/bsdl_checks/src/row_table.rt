// The rows of a boundary register, found by their numbers.
ghost use Rattle.std.specs.Prelude.{◌≡◌, IfOk, find, position};
ghost use Rattle.std.specs.Option.{option_copied};
ghost use Rattle.bsdl_device.specs.Checks as rule;

use bsdl_device::RowEntry;
use bsdl_row_rules::row_numbers;
use indexmap::IndexMap;
use std::alloc::Global;
use std::marker::Model;
use texts::OutOfMemory;
use texts::first_faults::first_places;

/// The rows of a boundary register. Of rows of one number the first is found.
#[derive(Drop)]
pub struct RowTable<'a> {
    rows: &'a [RowEntry],
    places: IndexMap<u32, usize>,
}

impl<'a> Model for RowTable<'a> {
    ghost use Rattle.std.specs.Prelude.{List};
    ghost use Rattle.bsdl_device.specs.declared.entries.RowEntry.{RowEntry};
    ghost use Rattle.bsdl_checks.specs.Tables.{FindsRows};

    ghost Value = { List RowEntry };

    ghost view = { λ t. t.rows.now };

    ghost invariant = { λ t. FindsRows t.rows.now t.places.entries };
}

impl<'a> RowTable<'a> {
    /// A table of the rows.
    pub fn of(alloc: Global, rows: &'a [RowEntry]) -> Result<RowTable<'a>, OutOfMemory>
        ensures { IfOk result (λ table. table ≡ rows.now) }
    {
        let numbers = row_numbers(alloc, rows)?;
        let places = first_places(alloc, &numbers)?;
        Ok(RowTable { rows, places })
    }

    fn position(&self, number: u32) -> Option<usize>
        ensures { result ≡ position (rule.is_numbered number) self.now }
    {
        self.places.get(&number).copied()
    }

    /// The row of a number.
    pub fn find(&self, number: u32) -> Option<&RowEntry>
        ensures { option_copied result ≡ find (rule.is_numbered number) self.now }
    {
        match self.position(number) {
            None => None,
            Some(place) => Some(&self.rows[place]),
        }
    }
}
