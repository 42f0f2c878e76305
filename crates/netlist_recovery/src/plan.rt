// The plan of a device.
ghost use Rattle.std.specs.Prelude.{◌≡◌, IfOk};
ghost use Rattle.strip_model.specs.Plans as model;

use crate::pin_lines::pin_lines;
use crate::prefix::before_end;
use crate::tap_lines::{linkage_of, taps_of};
use bsdl_device::{CellRow, Device};
use cell_library::{BoundaryKind, Function};
use plan_fitting::copies::{opcodes_copy, text_copy};
use plan_texts::{PinLine, Plan, TapLine};
use std::alloc::Global;
use strip_model::Taps;
use texts::{OutOfMemory, Row, Text};

fn version_for(usercode: Option<u32>) -> u32
    ensures { result ≡ model.version_for usercode }
{
    match usercode {
        None => 1,
        Some(_) => 2,
    }
}

// The kind of the first control cell, or BC_1.
fn control_of(rows: &[CellRow]) -> BoundaryKind
    ensures { result ≡ model.control_of rows.now }
{
    for row in rows {
        if matches!(row.function, Function::Control) {
            return row.cell;
        }
    }
    BoundaryKind::Bc1
}

fn plan_with(
    alloc: Global,
    prefix: &[u8],
    device: &Device,
    clock: &[u8],
    taps: Taps,
    pins: Row<PinLine>,
    linkage: Row<TapLine>,
) -> Result<Plan, OutOfMemory>
    ensures { IfOk result (λ plan. plan
        ≡ model.plan_with prefix.now device.now clock.now taps pins linkage) }
{
    let Taps {
        tck,
        tms,
        tdi,
        tdo,
        trst,
    } = taps;
    Ok(Plan {
        version: version_for(device.usercode),
        entity: text_copy(alloc, &device.entity)?,
        package: text_copy(alloc, &device.package)?,
        prefix: Text::from_bytes(alloc, prefix)?,
        tck,
        tms,
        tdi,
        tdo,
        trst,
        clock: Text::from_bytes(alloc, clock)?,
        length: device.length,
        capture: device.capture,
        opcodes: opcodes_copy(alloc, device.opcodes.as_slice())?,
        idcode: device.idcode,
        usercode: device.usercode,
        control: control_of(device.cells.as_slice()),
        pins,
        linkage,
    })
}

/// The plan of a device, by the prefix of what was added.
pub fn plan_of(alloc: Global, prefix: &[u8], device: &Device) -> Result<Option<Plan>, OutOfMemory>
    ensures { IfOk result (λ plan. plan ≡ model.plan_of prefix.now device.now) }
{
    let Some(clock) = before_end(b".0e6", device.clock.as_bytes()) else {
        return Ok(None);
    };
    let Some(taps) = taps_of(alloc, device)? else {
        return Ok(None);
    };
    let Some(pins) = pin_lines(alloc, device)? else {
        return Ok(None);
    };
    let Some(linkage) = linkage_of(alloc, device)? else {
        return Ok(None);
    };
    Ok(Some(plan_with(alloc, prefix, device, clock, taps, pins, linkage)?))
}
