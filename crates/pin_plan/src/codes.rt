// The codes of a plan's instructions.
ghost use Rattle.std.specs.Prelude.{◌≡◌, IfOk};
ghost use Rattle.plan_fitting.specs.Devices as devices;
ghost use Rattle.plan_fitting.specs.Rows as boundary;

use bsdl_device::is_instruction;
use cell_library::{Bits, Instr, Opcode};
use plan_fitting::copies::opcodes_copy;
use plan_texts::Plan;
use std::alloc::Global;
use test_logic::{Codes, opcode_of};
use texts::OutOfMemory;

/// Whether the plan has HIGHZ.
pub fn has_highz(opcodes: &[Opcode]) -> bool
    ensures { result ≡ boundary.has_highz opcodes.now }
{
    opcodes
        .iter()
        .any(|opcode| is_instruction(Instr::Highz, opcode.instr))
}

// What reset latches.
fn reset_bits(plan: &Plan) -> Bits
    ensures { result ≡ devices.reset_bits plan.now }
{
    let opcodes = plan.opcodes.as_slice();
    match opcode_of(opcodes, Instr::Idcode) {
        Some(bits) => bits,
        None => opcode_of(opcodes, Instr::Bypass).unwrap_or(plan.capture),
    }
}

/// The codes of a plan.
pub fn codes_of(alloc: Global, plan: &Plan) -> Result<Codes, OutOfMemory>
    ensures { IfOk result (λ codes. codes ≡ devices.codes_of plan.now) }
{
    Ok(Codes {
        length: plan.length,
        capture: plan.capture,
        opcodes: opcodes_copy(alloc, plan.opcodes.as_slice())?,
        reset: reset_bits(plan),
    })
}
