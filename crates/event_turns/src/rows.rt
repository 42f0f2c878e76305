// Of each cell in its place what an event needs, where it is a gate of two nets.

ghost use Rattle.std.specs.Prelude.{◌≡◌, ◌≤◌, ◌<◌, ◌+◌, ℕ, Some, None, true, IfOk, length, slice_get};
ghost use Rattle.netlist_settling.specs.Values.{side_at};
ghost use Rattle.event_turns.specs.declared.circuit.Gate.{Gate};
ghost use Rattle.event_turns.specs.Circuits.{AreRows, IsRowOf, is_plain};

use crate::circuit::{Gate, Row};
use cell_library::Library;
use event_parts::counted_cells::pair_of;
use netlist_model::{Dir, Feed, NetId};
use std::alloc::Global;
use texts::OutOfMemory;

/// What is kept of each gate of two nets.
pub(crate) fn rows_of(
    alloc: Global,
    library: &Library,
    gates: &[Gate],
    feeds: &[Feed],
    sides: &[Option<Dir>],
) -> Result<Vec<Row>, OutOfMemory>
    requires { (place : ℕ) (gate : Gate) → slice_get gates.now place ≡ Some gate
        → gate.first + gate.count ≤ length feeds.now }
    ensures { IfOk result (λ rows. AreRows library.now feeds.now sides.now gates.now rows.items) }
{
    let mut rows = Vec::new(alloc);
    for gate in gates {
        rows.push(row_of(library, *gate, feeds, sides))?;
    }
    Ok(rows)
}

// What is kept of a gate.
fn row_of(library: &Library, gate: Gate, feeds: &[Feed], sides: &[Option<Dir>]) -> Row
    requires { gate.first + gate.count ≤ length feeds.now }
    ensures { IsRowOf library.now feeds.now sides.now gate result }
{
    let operands = &feeds[gate.first..gate.first + gate.count as usize];
    match (pair_of(library, gate.kind), operands, gate.output) {
        (Some(pair), [Feed::Net(a), Feed::Net(b)], Some(net)) if is_plain(sides, net) => Row {
            pair: Some(pair),
            a: *a,
            b: *b,
            net,
        },
        _ => Row {
            pair: None,
            a: NetId(0),
            b: NetId(0),
            net: NetId(0),
        },
    }
}

// Whether a net has its value from its driver alone: it is no input or inout.
fn is_plain(sides: &[Option<Dir>], net: NetId) -> bool
    ensures { result ≡ is_plain (side_at sides.now net.0) }
{
    match sides.get(net.0 as usize) {
        Some(Some(Dir::Input)) | Some(Some(Dir::Inout)) => false,
        Some(Some(Dir::Output)) | Some(None) | None => true,
    }
}
