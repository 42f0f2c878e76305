// The instructions of a version, by their names.
ghost use Rattle.std.specs.Prelude.{◌≡◌, find};
ghost use Rattle.std.specs.Str.{bytes_eq};
ghost use Rattle.bsdl_device.specs.Instructions.{instruction_word};
ghost use Rattle.plan_texts.specs.Rules as rules;

use bsdl_device::{INSTRUCTIONS, instruction_word};
use cell_library::Instr;

// Those of version 1.
const FIRST_INSTRUCTIONS: [Instr; 7] = [
    Instr::Bypass,
    Instr::Extest,
    Instr::Sample,
    Instr::Preload,
    Instr::Idcode,
    Instr::Highz,
    Instr::Clamp,
];

// The first of these instructions that has the name, byte for byte.
fn first_named(instructions: &[Instr], name: &[u8]) -> Option<Instr>
    ensures { result ≡ find (λ i. bytes_eq name.now (instruction_word i)) instructions.now }
{
    instructions
        .iter()
        .copied()
        .find(|instruction| name == instruction_word(*instruction))
}

/// The instruction of a name, byte for byte; version 2 has USERCODE besides.
pub fn instruction_of(version: u32, name: &[u8]) -> Option<Instr>
    ensures { result ≡ rules.instruction_of (rules.instructions_of version) name.now }
{
    if version == 2 {
        first_named(&INSTRUCTIONS, name)
    } else {
        first_named(&FIRST_INSTRUCTIONS, name)
    }
}
