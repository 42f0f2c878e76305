// The opcodes of a device, and the instruction that each names.

ghost use Rattle.std.specs.Prelude.{◌≡◌, IfOk, find};
ghost use Rattle.test_logic.specs.Instructions as definition;

use crate::patterns::{are_bits, pattern};
use bsdl_device::INSTRUCTIONS;
use cell_library::{Instr, Opcode};
use signal_values::Sig;
use std::alloc::Global;
use test_logic::{Mode, opcode_of};
use texts::OutOfMemory;

/// What an instruction makes of the boundary cells.
pub fn mode_of(instruction: Instr) -> Mode
    ensures { result ≡ definition.mode_of instruction }
{
    let (takes_updates, hiz) = match instruction {
        Instr::Extest | Instr::Clamp => (true, false),
        Instr::Highz => (true, true),
        Instr::Sample | Instr::Preload | Instr::Bypass | Instr::Idcode | Instr::Usercode => {
            (false, false)
        }
    };
    Mode {
        m_out: takes_updates,
        m_in: takes_updates,
        hiz,
    }
}

fn names(opcodes: &[Opcode], latched: &[Sig], instruction: Instr) -> bool
    ensures { result ≡ definition.is_opcode latched.now (definition.opcode_of opcodes.now instruction) }
{
    match opcode_of(opcodes, instruction) {
        Some(bits) => are_bits(latched, bits.len, bits.value),
        None => false,
    }
}

// An opcode that names nothing acts as BYPASS.
const NAMELESS: Instr = Instr::Bypass;

// The first of these instructions whose opcode is latched.
fn first_latched(instructions: &[Instr], opcodes: &[Opcode], latched: &[Sig]) -> Option<Instr>
    ensures { result ≡ find (λ i. definition.is_opcode latched.now
        (definition.opcode_of opcodes.now i)) instructions.now }
{
    instructions
        .iter()
        .copied()
        .find(|instruction| names(opcodes, latched, *instruction))
}

/// The instruction in effect while this opcode is latched.
#[tactic(auto, unfolding(test_logic::specs::Instructions::instruction_of))]
pub fn instruction_of(opcodes: &[Opcode], latched: &[Sig]) -> Instr
    ensures { result ≡ definition.instruction_of opcodes.now latched.now }
{
    first_latched(&INSTRUCTIONS, opcodes, latched).unwrap_or(NAMELESS)
}

/// The opcode that reset latches.
pub fn reset_opcode(alloc: Global, opcodes: &[Opcode]) -> Result<Vec<Sig>, OutOfMemory>
    ensures { IfOk result (λ bits. bits.items ≡ definition.reset_opcode opcodes.now) }
{
    match opcode_of(opcodes, Instr::Idcode) {
        Some(bits) => pattern(alloc, bits),
        None => match opcode_of(opcodes, Instr::Bypass) {
            Some(bits) => pattern(alloc, bits),
            None => Ok(Vec::new(alloc)),
        },
    }
}
