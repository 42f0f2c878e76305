// The cells of a boundary register, found by the bits at which they stand.
ghost use Rattle.std.specs.Prelude.{◌≡◌, Some, IfOk, OnOk, position, if◌then◌else◌};
ghost use Rattle.std.specs.Map.{lookup};
ghost use Rattle.bsdl_device.specs.IsDevice.{is_at};
ghost use Rattle.scan_programs.specs.Tables.{key_of, same_key, is_key};

use bsdl_device::{CellRow, DevBit};
use indexmap::IndexMap;
use std::alloc::Global;
use std::marker::Model;
use texts::OutOfMemory;

/// A bit of a port as a key.
#[derive(Clone, Copy, PartialEq, Eq, Hash)]
pub struct BitKey {
    pub port: u32,
    pub index: Option<u32>,
}

/// The cells of a device. Of cells at one bit the first is found.
#[derive(Drop)]
pub struct CellTable<'a> {
    cells: &'a [CellRow],
    places: IndexMap<BitKey, usize>,
}

impl<'a> Model for CellTable<'a> {
    ghost use Rattle.std.specs.Prelude.{List};
    ghost use Rattle.bsdl_device.specs.declared.values.CellRow.{CellRow};
    ghost use Rattle.scan_programs.specs.Tables.{FindsCells};

    ghost Value = { List CellRow };

    ghost view = { λ t. t.cells.now };

    ghost invariant = { λ t. FindsCells t.cells.now t.places.entries };
}

fn bit_key(bit: DevBit) -> BitKey
    ensures { result ≡ key_of bit }
{
    BitKey {
        port: bit.port,
        index: bit.index,
    }
}

// The first of the cells from this number on at each bit, where the table has it of those behind.
fn enter_cell(
    places: &mut IndexMap<BitKey, usize>,
    number: usize,
    cell: CellRow,
) -> Result<(), OutOfMemory>
    ensures { OnOk result ((key : BitKey) → lookup (same_key key) places.new.entries
        ≡ (if is_key key cell then Some number else lookup (same_key key) places.old.entries)) }
{
    if let Some(bit) = cell.pin {
        places.insert(bit_key(bit), number)?;
    }
    Ok(())
}

fn first_places(alloc: Global, cells: &[CellRow]) -> Result<IndexMap<BitKey, usize>, OutOfMemory>
    ensures { IfOk result (λ table. (key : BitKey)
        → lookup (same_key key) table.entries ≡ position (is_key key) cells.now) }
{
    let mut places = IndexMap::new(alloc);
    for number in (0..cells.len()).rev() {
        enter_cell(&mut places, number, cells[number])?;
    }
    Ok(places)
}

impl<'a> CellTable<'a> {
    /// A table of the cells.
    pub fn of(alloc: Global, cells: &'a [CellRow]) -> Result<CellTable<'a>, OutOfMemory>
        ensures { IfOk result (λ table. table ≡ cells.now) }
    {
        let places = first_places(alloc, cells)?;
        Ok(CellTable { cells, places })
    }

    /// The number of the cell that stands at a bit.
    pub fn cell_at(&self, bit: DevBit) -> Option<usize>
        ensures { result ≡ position (is_at bit) self.now }
    {
        self.places.get(&bit_key(bit)).copied()
    }
}
