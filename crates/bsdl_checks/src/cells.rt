// The cells of a device's boundary register.
ghost use Rattle.std.specs.Prelude.{◌≡◌, ◌≤◌, ◌++◌, [], IfOk, OnOk, find, length, map};
ghost use Rattle.std.specs.List.{cons_option};
ghost use Rattle.std.specs.Option.{option_map};
ghost use Rattle.bsdl_device.specs.Checks as rule;
ghost use Rattle.bsdl_device.specs.Denoted as denoted;

use crate::row_table::RowTable;
use bsdl_device::{CellRow, DevBit, PortBit, RowEntry};
use bsdl_port_rules::PortTable;
use std::alloc::Global;
use texts::{OutOfMemory, Row};

/// The place of a port, and 0 where no port has the name.
pub fn place_of(ports: &PortTable, name: &[u8]) -> u32
    requires { length ports.now ≤ 4096 }
    ensures { result ≡ denoted.place_of ports.now name.now }
{
    match ports.position(name) {
        None => 0,
        Some(place) => place as u32,
    }
}

fn pin_of(ports: &PortTable, bit: &Option<PortBit>) -> Option<DevBit>
    requires { length ports.now ≤ 4096 }
    ensures { result ≡ option_map (denoted.bit_of ports.now) bit.now }
{
    match bit {
        None => None,
        Some(bit) => Some(DevBit {
            port: place_of(ports, bit.port.as_bytes()),
            index: bit.index,
        }),
    }
}

fn cell_of(ports: &PortTable, row: &RowEntry) -> CellRow
    requires { length ports.now ≤ 4096 }
    ensures { result ≡ denoted.cell_of ports.now row.now }
{
    CellRow {
        cell: row.cell,
        pin: pin_of(ports, &row.port),
        function: row.function,
        safe: row.safe,
        disable: row.disable,
    }
}

// Adds the cell of the row of this number at the end.
fn push_cell(
    made: &mut Row<CellRow>,
    ports: &PortTable,
    rows: &RowTable,
    number: u32,
) -> Result<(), OutOfMemory>
    requires { length ports.now ≤ 4096 }
    ensures { OnOk result (made.new ≡ made.old
        ++ map (denoted.cell_of ports.now) (cons_option (find (rule.is_numbered number) rows.now) [])) }
{
    match rows.find(number) {
        None => Ok(()),
        Some(row) => made.push(cell_of(ports, row)),
    }
}

#[tactic(auto, using(crate::proofs::CellRows::cells_next))]
fn ordered_cells(
    alloc: Global,
    ports: &PortTable,
    count: u32,
    rows: &RowTable,
) -> Result<Row<CellRow>, OutOfMemory>
    requires { length ports.now ≤ 4096 }
    ensures { IfOk result (λ made. made ≡ map (denoted.cell_of ports.now)
        (denoted.ordered_rows count rows.now)) }
{
    let mut made = Row::new(alloc);
    for number in 0..count {
        push_cell(&mut made, ports, rows, number)?;
    }
    Ok(made)
}

/// The cells of the rows, in the order of their numbers.
pub fn cells_of(
    alloc: Global,
    ports: &PortTable,
    count: u32,
    rows: &[RowEntry],
) -> Result<Row<CellRow>, OutOfMemory>
    requires { length ports.now ≤ 4096 }
    ensures { IfOk result (λ made. made ≡ map (denoted.cell_of ports.now)
        (denoted.ordered_rows count rows.now)) }
{
    let table = RowTable::of(alloc, rows)?;
    ordered_cells(alloc, ports, count, &table)
}
