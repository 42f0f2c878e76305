// Opcodes of instructions, by the instructions' names.
// IEEE Std 1149.1-2001: the instructions, the device identification register.
ghost use Rattle.std.specs.Prelude.{◌≡◌};
ghost use Rattle.bsdl_device.specs.Instructions as profile;
ghost use Rattle.bsdl_device.specs.Checks as rule;

use crate::runs::numbers::is_ones;
use crate::{OpcodeEntry, instruction_word};
use bsdl_lexicon::same_name;
use cell_library::{Bits, Instr};

/// The name is the instruction's.
pub fn names_instruction(instruction: Instr, name: &[u8]) -> bool
    ensures { result ≡ profile.names_instruction instruction name.now }
{
    same_name(name, instruction_word(instruction))
}

/// The instruction has an opcode.
pub fn has_instruction(opcodes: &[OpcodeEntry], instruction: Instr) -> bool
    ensures { result ≡ rule.has_instruction opcodes.now instruction }
{
    opcodes.iter().any(|opcode| names_instruction(instruction, opcode.name.as_bytes()))
}

/// The bits are of another length.
pub fn has_other_length(wanted: u32, bits: Bits) -> bool
    ensures { result ≡ rule.has_other_length wanted bits }
{
    bits.len != wanted
}

/// The opcode is that of BYPASS, and has a bit other than 1.
pub fn bypass_is_not_ones(opcode: &OpcodeEntry) -> bool
    ensures { result ≡ rule.bypass_is_not_ones opcode.now }
{
    names_instruction(Instr::Bypass, opcode.name.as_bytes()) && !is_ones(opcode.bits)
}

fn are_sample_and_preload(first: &OpcodeEntry, second: &OpcodeEntry) -> bool
    ensures { result ≡ rule.are_sample_and_preload first.now second.now }
{
    let one = first.name.as_bytes();
    let other = second.name.as_bytes();
    names_instruction(Instr::Sample, one) && names_instruction(Instr::Preload, other)
        || names_instruction(Instr::Preload, one) && names_instruction(Instr::Sample, other)
}

/// The two have one opcode, and aren't SAMPLE and PRELOAD.
pub fn clash(first: &OpcodeEntry, second: &OpcodeEntry) -> bool
    ensures { result ≡ rule.opcodes_clash first.now second.now }
{
    first.bits.len == second.bits.len
        && first.bits.value == second.bits.value
        && !are_sample_and_preload(first, second)
}

/// Bit 0 of the code is 0, or its manufacturer is 00001111111.
pub fn code_is_barred(code: u32) -> bool
    ensures { result ≡ rule.code_is_barred code }
{
    code % 2 == 0 || code / 2 % 2048 == 127
}
