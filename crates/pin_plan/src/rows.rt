// The boundary cells of a plan.
ghost use Rattle.std.specs.Prelude.{◌≡◌, ◌++◌, ◌<◌, ◌^◌, IfOk, OnOk, false, length};
ghost use Rattle.bsdl_device.specs.RowRules.{is_function};
ghost use Rattle.plan_fitting.specs.Rows as boundary;

use crate::codes::has_highz;
use crate::pins::PinAt;
use cell_library::{BoundaryKind, Function};
use control_cells::{Driver, RowTable};
use netlist_model::{Dir, Feed};
use plan_fitting::FitRow;
use plan_texts::{PinLine, Plan};
use std::alloc::Global;
use texts::{OutOfMemory, Row};

// The cell of an input.
fn input_row(line: &PinLine, one: &PinAt) -> FitRow
    ensures { result ≡ boundary.input_row line.now one.now }
{
    FitRow {
        cell: line.cell,
        function: if one.clock {
            Function::Clock
        } else {
            Function::Input
        },
        pin: Some(one.pin),
        core: None,
        control: None,
        active_high: false,
    }
}

// The cell of an output that is always driven.
fn two_state_row(line: &PinLine, one: &PinAt) -> FitRow
    ensures { result ≡ boundary.two_state_row line.now one.now }
{
    FitRow {
        cell: line.cell,
        function: Function::Output2,
        pin: Some(one.pin),
        core: Some(Feed::Net(one.net)),
        control: None,
        active_high: false,
    }
}

// The data cell of a driver whose control cell has this number.
fn data_row(function: Function, line: &PinLine, one: &PinAt, driver: Driver, number: u32) -> FitRow
    ensures { result ≡ boundary.data_row function line.now one.now driver number }
{
    FitRow {
        cell: line.cell,
        function,
        pin: Some(one.pin),
        core: Some(driver.core),
        control: Some(number),
        active_high: false,
    }
}

// The driver of an output bit, if a control cell is to control it.
fn output_driver(highz: bool, one: &PinAt) -> Option<Driver>
    ensures { result ≡ boundary.output_driver highz one.now }
{
    match one.driver {
        Some(driver) => Some(driver),
        None if highz => Some(Driver {
            core: Feed::Net(one.net),
            operand: Feed::Const(true),
            active_high: true,
        }),
        None => None,
    }
}

// Adds the data cell of a driver, and behind it its control cell unless that is there.
fn add_controlled(
    rows: &mut RowTable,
    kind: BoundaryKind,
    function: Function,
    line: &PinLine,
    one: &PinAt,
    driver: Driver,
) -> Result<(), OutOfMemory>
    requires { is_function Function.Control function ≡ false }
    ensures { OnOk result (rows.new ≡ rows.old
        ++ boundary.controlled_rows kind rows.old function line.now one.now driver) }
{
    match rows.control_of(driver) {
        Some(number) => rows.push(data_row(function, line, one, driver, number)),
        None => {
            let number = rows.len() + 1;
            rows.push(data_row(function, line, one, driver, number))?;
            rows.push_control(kind, driver)
        }
    }
}

// Adds the cells of a pin line.
fn add_rows(
    rows: &mut RowTable,
    kind: BoundaryKind,
    highz: bool,
    line: &PinLine,
    one: &PinAt,
) -> Result<(), OutOfMemory>
    ensures { OnOk result (rows.new ≡ rows.old
        ++ boundary.rows_at kind highz rows.old line.now one.now one.now.side) }
{
    match one.side {
        Dir::Input => rows.push(input_row(line, one)),
        Dir::Output => match output_driver(highz, one) {
            Some(driver) => add_controlled(rows, kind, Function::Output3, line, one, driver),
            None => rows.push(two_state_row(line, one)),
        },
        Dir::Inout => match one.driver {
            Some(driver) => add_controlled(rows, kind, Function::Bidir, line, one, driver),
            None => Ok(()),
        },
    }
}

/// The boundary cells of a plan whose pin lines are of these bits.
pub fn boundary_rows(alloc: Global, plan: &Plan, pins: &[PinAt]) -> Result<Row<FitRow>, OutOfMemory>
    ensures rows { IfOk result (λ rows. rows ≡ boundary.rows plan.now pins.now) }
    ensures count { IfOk result (λ rows. length rows < 2 ^ 32) }
{
    let highz = has_highz(plan.opcodes.as_slice());
    let mut rows = RowTable::new(alloc);
    for (line, one) in plan.pins.as_slice().iter().zip(pins) {
        add_rows(&mut rows, plan.control, highz, line, one)?;
    }
    Ok(rows.into_rows())
}
