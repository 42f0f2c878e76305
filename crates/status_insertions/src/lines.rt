// The report's lines of the registers.
ghost use Rattle.std.specs.Prelude.{◌≡◌, ◌++◌, IfOk, OnOk};
ghost use Rattle.std.specs.List.{flat_map};
ghost use Rattle.netlist_arena.specs.Arena.{bit_count};
ghost use Rattle.status_insertions.specs.Reports.{extended_report, register_line};

use bsdl_device::registers::{Extended, TestRegister};
use insertion_report::report;
use itoa::Buffer;
use netlist_link::Linked;
use output_lines::add_line;
use plan_fitting::Fitted;
use std::alloc::Global;
use texts::{OutOfMemory, Text};

// The line of a register: its name, its bits and its instruction.
fn add_register(text: &mut Text, register: &TestRegister) -> Result<(), OutOfMemory>
    ensures { OnOk result (text.new ≡ text.old ++ register_line register.now) }
{
    let mut digits = Buffer::new();
    let length = digits.format(register.length);
    add_line(
        text,
        b"register",
        &[
            register.name.as_bytes(),
            length.as_bytes(),
            register.instr.as_bytes(),
        ],
    )
}

fn add_registers(text: &mut Text, registers: &[TestRegister]) -> Result<(), OutOfMemory>
    ensures { OnOk result (text.new ≡ text.old ++ flat_map register_line registers.now) }
{
    for register in registers {
        add_register(text, register)?;
    }
    Ok(())
}

/// The report on a device with its registers, the netlist of which has its test logic, and the plan that it was made
/// by.
pub fn report_all(
    alloc: Global,
    linked: &Linked,
    fitted: &Fitted,
    extended: &Extended,
) -> Result<Text, OutOfMemory>
    requires { linked.now.straight.count ≡ 0 }
    ensures { IfOk result (λ text. text ≡ extended_report
        (bit_count linked.now.arena.lists.ports) fitted.now.kept extended.now) }
{
    let mut text = report(alloc, linked, fitted, &extended.device)?;
    add_registers(&mut text, extended.registers.as_slice())?;
    Ok(text)
}
