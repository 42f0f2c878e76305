// The device of what was fitted, with the registers.

ghost use Rattle.std.specs.Prelude.{◌≡◌, ◌+◌, ◌^◌, ◌<◌, length, map, IfOk};
ghost use Rattle.plan_fitting.specs.Devices.{device_of_fitted};
ghost use Rattle.status_stitch.specs.scan_stitch.Ready.{AreBitsInRange};
ghost use Rattle.status_register.specs.Devices as devices;

use bsdl_device::registers::{Extended, TestRegister};
use plan_fitting::Fitted;
use plan_fitting::copies::text_copy;
use status_fitting::{FittedRegister, FittedStatus};
use status_stitch::lower_scan_stitch::device_of_fit;
use std::alloc::Global;
use texts::{OutOfMemory, Row};

fn register_copy(alloc: Global, register: &TestRegister) -> Result<TestRegister, OutOfMemory>
    ensures { IfOk result (λ copy. copy ≡ register.now) }
{
    let name = text_copy(alloc, &register.name)?;
    let instr = text_copy(alloc, &register.instr)?;
    Ok(TestRegister {
        name,
        instr,
        bits: register.bits,
        length: register.length,
    })
}

// The registers, in their order.
fn register_copies(
    alloc: Global,
    registers: &[FittedRegister],
) -> Result<Row<TestRegister>, OutOfMemory>
    ensures { IfOk result (λ copies. copies ≡ map devices.register_of registers.now) }
{
    let mut copies = Row::new(alloc);
    for fitted in registers {
        let copy = register_copy(alloc, &fitted.register)?;
        copies.push(copy)?;
    }
    Ok(copies)
}

/// The device of a plan that was fitted to a netlist, with the registers that were.
pub fn extended_of(
    alloc: Global,
    fitted: &Fitted,
    status: &FittedStatus,
) -> Result<Extended, OutOfMemory>
    requires bits { AreBitsInRange fitted.now }
    requires ports { length fitted.now.ports + 5 < 2 ^ 32 }
    ensures { IfOk result (λ extended. extended
        ≡ devices.extended_of (device_of_fitted fitted.now) status.now) }
{
    let device = device_of_fit(alloc, fitted)?;
    let registers = register_copies(alloc, status.registers.as_slice())?;
    Ok(Extended { device, registers })
}
