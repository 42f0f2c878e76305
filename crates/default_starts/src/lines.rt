// Event lines with starts in front.
ghost use Rattle.std.specs.Prelude.{IfOk};
ghost use Rattle.default_starts.specs.Starts.{IsWithStarts};

use crate::starts::default_starts;
use netlist_link::Linked;
use scan_vectors::Lines;
use std::alloc::Global;
use texts::{OutOfMemory, Row};

/// Event lines behind a start, of number 0, for each input bit of a hidden port that no line starts.
pub fn with_starts(alloc: Global, linked: &Linked, lines: Lines) -> Result<Lines, OutOfMemory>
    ensures { IfOk result (IsWithStarts linked.now lines) }
{
    let starts = default_starts(alloc, linked, lines.list.as_slice())?;
    if starts.is_empty() {
        return Ok(lines);
    }
    let Lines {
        list: own_list,
        numbers: own_numbers,
        end,
    } = lines;
    let mut list = starts.into_vec();
    let mut numbers: Vec<u64> = vec![in alloc; 0; list.len()]?;
    list.append(&mut own_list.into_vec())?;
    numbers.append(&mut own_numbers.into_vec())?;
    Ok(Lines {
        list: Row::from(list),
        numbers: Row::from(numbers),
        end,
    })
}
