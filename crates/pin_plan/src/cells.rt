// The kinds of boundary cells that ports take.
ghost use Rattle.std.specs.Prelude.{◌≡◌, IfOk};
ghost use Rattle.plan_fitting.specs.Fits as fits;

use crate::pins::PinAt;
use cell_library::BoundaryKind;
use netlist_model::Dir;
use plan_fitting::FitFault;
use plan_texts::PinLine;
use std::alloc::Global;
use texts::{OutOfMemory, Text};

// Whether the cell is for such a port.
fn suits_port(cell: BoundaryKind, side: Dir, control: bool) -> bool
    ensures { result ≡ fits.suits_port cell side control }
{
    match (cell, side) {
        (BoundaryKind::Bc4, Dir::Input) => true,
        (BoundaryKind::Bc1, Dir::Input) => !control,
        (BoundaryKind::Bc1 | BoundaryKind::Bc2, Dir::Output) => true,
        (BoundaryKind::Bc7, Dir::Inout) => true,
        _ => false,
    }
}

/// The first pin line whose cell isn't for its port.
pub fn find_unsuited(
    alloc: Global,
    lines: &[PinLine],
    pins: &[PinAt],
) -> Result<Option<FitFault>, OutOfMemory>
    ensures { IfOk result (λ found. found ≡ fits.cell_fault lines.now pins.now) }
{
    for (line, one) in lines.iter().zip(pins) {
        if !suits_port(line.cell, one.side, one.control) {
            return Ok(Some(FitFault::PlanCell {
                word: Text::from_bytes(alloc, line.port.as_bytes())?,
            }));
        }
    }
    Ok(None)
}
