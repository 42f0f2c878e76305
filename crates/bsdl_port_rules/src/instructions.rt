// Rules on the instruction register: its length, opcodes, the captured bits, the identification code and the usercode.
ghost use Rattle.std.specs.Prelude.{◌≡◌, IfOk, find, map, not};
ghost use Rattle.std.specs.List.{list_any};
ghost use Rattle.std.specs.Option.{option_map_or};
ghost use Rattle.bsdl_device.specs.Instructions as profile;
ghost use Rattle.bsdl_device.specs.Checks as rule;
ghost use Rattle.bsdl_lexicon.specs.NameKeys.{names_in};

use crate::names::is_repeated;
use bsdl_device::runs::opcodes::{
    bypass_is_not_ones, clash, code_is_barred, has_instruction, has_other_length, names_instruction,
};
use bsdl_device::{Contents, File, INSTRUCTIONS, OpcodeEntry, REQUIRED_INSTRUCTIONS};
use bsdl_lexicon::NameKey;
use cell_library::Instr;
use std::alloc::Global;
use texts::OutOfMemory;

// The first of these instructions that has the name.
fn first_named(instructions: &[Instr], name: &[u8]) -> Option<Instr>
    ensures { result ≡ find (λ i. profile.names_instruction i name.now) instructions.now }
{
    instructions
        .iter()
        .copied()
        .find(|instruction| names_instruction(*instruction, name))
}

/// The one of `INSTRUCTIONS` that has the name; letters may be of any case.
pub fn instruction_named(name: &[u8]) -> Option<Instr>
    ensures { result ≡ profile.instruction_named name.now }
{
    first_named(&INSTRUCTIONS, name)
}

/// The instruction register has fewer than 2 bits, or more than 32.
pub fn length_fails(file: &File) -> bool
    ensures { result ≡ rule.length_fails file.now }
{
    file.length.value < 2 || 32 < file.length.value
}

fn has_unknown(opcodes: &[OpcodeEntry]) -> bool
    ensures { result ≡ list_any rule.opcode_is_unknown opcodes.now }
{
    opcodes.iter().any(|opcode| instruction_named(opcode.name.as_bytes()).is_none())
}

fn gather_names<'a>(
    alloc: Global,
    opcodes: &'a [OpcodeEntry],
) -> Result<Vec<NameKey<'a>>, OutOfMemory>
    ensures { IfOk result (λ names. names_in names.items ≡ map (λ o. o.name) opcodes.now) }
{
    let mut names = Vec::new(alloc);
    for opcode in opcodes {
        names.push(NameKey(opcode.name.as_bytes()))?;
    }
    Ok(names)
}

fn named_twice(alloc: Global, opcodes: &[OpcodeEntry]) -> Result<bool, OutOfMemory>
    ensures { IfOk result (λ twice. twice ≡ rule.opcode_named_twice opcodes.now) }
{
    let names = gather_names(alloc, opcodes)?;
    is_repeated(alloc, &names)
}

fn lacks_instruction(opcodes: &[OpcodeEntry]) -> bool
    ensures { result ≡ rule.lacks_instruction opcodes.now }
{
    REQUIRED_INSTRUCTIONS
        .iter()
        .any(|instruction| !has_instruction(opcodes, *instruction))
}

fn has_misfit(wanted: u32, opcodes: &[OpcodeEntry]) -> bool
    ensures { result ≡ list_any (λ o. rule.has_other_length wanted o.bits) opcodes.now }
{
    opcodes
        .iter()
        .any(|opcode| has_other_length(wanted, opcode.bits))
}

fn has_wrong_bypass(opcodes: &[OpcodeEntry]) -> bool
    ensures { result ≡ list_any rule.bypass_is_not_ones opcodes.now }
{
    opcodes.iter().any(|opcode| bypass_is_not_ones(opcode))
}

fn clashes_with(first: &OpcodeEntry, others: &[OpcodeEntry]) -> bool
    ensures { result ≡ list_any (rule.opcodes_clash first.now) others.now }
{
    others.iter().any(|second| clash(first, second))
}

// Two opcodes clash; where each is of a known instruction, there are eight at most.
fn some_clash(opcodes: &[OpcodeEntry]) -> bool
    ensures { result ≡ rule.any_pair rule.opcodes_clash opcodes.now }
{
    for i in 0..opcodes.len() {
        if clashes_with(&opcodes[i], &opcodes[i + 1..]) {
            return true;
        }
    }
    false
}

/// An instruction is unknown, comes twice or is missing, or an opcode can't be its own.
pub fn opcode_fails(alloc: Global, file: &File, contents: &Contents) -> Result<bool, OutOfMemory>
    ensures { IfOk result (λ fails. fails ≡ rule.opcode_fails file.now contents.now) }
{
    let opcodes = contents.opcodes.as_slice();
    let twice = named_twice(alloc, opcodes)?;
    Ok(
        has_unknown(opcodes)
            || twice
            || lacks_instruction(opcodes)
            || has_misfit(file.length.value, opcodes)
            || has_wrong_bypass(opcodes)
            || some_clash(opcodes),
    )
}

/// The captured bits have another length than the register, or don't end in 01.
pub fn capture_fails(file: &File, contents: &Contents) -> bool
    ensures { result ≡ rule.capture_fails file.now contents.now }
{
    has_other_length(file.length.value, contents.capture) || contents.capture.value % 4 != 1
}

/// There is a code without the instruction, the instruction without a code, or a code that is barred.
pub fn idcode_fails(contents: &Contents) -> bool
    ensures { result ≡ rule.idcode_fails contents.now }
{
    let reads = has_instruction(contents.opcodes.as_slice(), Instr::Idcode);
    match contents.idcode {
        None => reads,
        Some(code) => !reads || code_is_barred(code),
    }
}

// There is a code without the instruction, or the instruction without a code.
fn stands_alone(code: Option<u32>, named: bool) -> bool
    ensures { result ≡ option_map_or (λ _. not named) code named }
{
    match code {
        None => named,
        Some(_) => !named,
    }
}

/// There is a usercode without the instruction, the instruction without a usercode, or the instruction without IDCODE.
pub fn usercode_fails(contents: &Contents) -> bool
    ensures { result ≡ rule.usercode_fails contents.now }
{
    let opcodes = contents.opcodes.as_slice();
    let named = has_instruction(opcodes, Instr::Usercode);
    stands_alone(contents.usercode, named) || (named && !has_instruction(opcodes, Instr::Idcode))
}
