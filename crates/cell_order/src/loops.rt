// The loop at the end of a path.

ghost use Rattle.std.specs.Prelude.{◌≡◌, IfOk};
ghost use Rattle.netlist_model.specs.Orders.{StandsAt};
ghost use Rattle.cell_order.specs.Walk.{IsPathBack, Stands};

use netlist_model::CellId;
use std::alloc::Global;
use texts::{OutOfMemory, Row};

/// The numbers of the path's cells, from the last back to this one.
pub(crate) fn loop_numbers(
    alloc: Global,
    path: &[CellId],
    on: CellId,
) -> Result<Row<u32>, OutOfMemory>
    requires { Stands path.now on.0 }
    ensures { IfOk result (IsPathBack path.now on.0) }
{
    let from = place_of(path, on);
    let mut numbers = Row::new(alloc);
    for passed in 0..path.len() - from {
        numbers.push(path[path.len() - 1 - passed].0)?;
    }
    Ok(numbers)
}

// Where a cell stands.
fn place_of(path: &[CellId], cell: CellId) -> usize
    requires { Stands path.now cell.0 }
    ensures { StandsAt path.now result cell.0 }
{
    for place in 0..path.len() {
        if path[place].0 == cell.0 {
            return place;
        }
    }
    unreachable!()
}
