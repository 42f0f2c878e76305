// Rules on register access.
ghost use Rattle.std.specs.Prelude.{◌≡◌, IfOk};
ghost use Rattle.std.specs.List.{list_any};
ghost use Rattle.bsdl_lexicon.specs.Names.{is_same_name};
ghost use Rattle.bsdl_device.specs.Instructions as profile;
ghost use Rattle.bsdl_device.specs.Checks as rule;
ghost use Rattle.bsdl_lexicon.specs.NameKeys.{names_in};

use crate::instructions::instruction_named;
use crate::names::{extend_keys, is_repeated};
use bsdl_device::{AccessEntry, Contents, OpcodeEntry, Register, selected_register};
use bsdl_lexicon::NameKey;
use bsdl_lexicon::names::same_name;
use std::alloc::Global;
use texts::OutOfMemory;

fn gather_instructions<'a>(
    alloc: Global,
    access: &'a [AccessEntry],
) -> Result<Vec<NameKey<'a>>, OutOfMemory>
    ensures { IfOk result (λ names. names_in names.items ≡ rule.instructions_of access.now) }
{
    let mut names = Vec::new(alloc);
    for entry in access {
        extend_keys(&mut names, entry.instructions.as_slice())?;
    }
    Ok(names)
}

fn has_opcode(opcodes: &[OpcodeEntry], name: &[u8]) -> bool
    ensures { result ≡ list_any (λ o. is_same_name name.now o.name) opcodes.now }
{
    opcodes
        .iter()
        .any(|opcode| same_name(name, opcode.name.as_bytes()))
}

fn is_without_opcode(opcodes: &[OpcodeEntry], name: &[u8]) -> bool
    ensures { result ≡ rule.is_without_opcode opcodes.now name.now }
{
    !has_opcode(opcodes, name)
}

fn entry_lacks_opcode(opcodes: &[OpcodeEntry], entry: &AccessEntry) -> bool
    ensures { result ≡ list_any (rule.is_without_opcode opcodes.now) entry.now.instructions }
{
    entry
        .instructions
        .as_slice()
        .iter()
        .any(|name| is_without_opcode(opcodes, name.as_bytes()))
}

fn some_lacks_opcode(opcodes: &[OpcodeEntry], access: &[AccessEntry]) -> bool
    ensures { result ≡ list_any (λ a. list_any
        (rule.is_without_opcode opcodes.now) a.instructions) access.now }
{
    access
        .iter()
        .any(|entry| entry_lacks_opcode(opcodes, entry))
}

#[tactic(auto, using(crate::proofs::Entries::along_entries))]
fn lacks_opcode(opcodes: &[OpcodeEntry], access: &[AccessEntry]) -> bool
    ensures { result ≡ list_any (rule.is_without_opcode opcodes.now) (rule.instructions_of access.now) }
{
    some_lacks_opcode(opcodes, access)
}

fn is_register(wanted: Register, register: Register) -> bool
    ensures { result ≡ profile.is_register wanted register }
{
    match (wanted, register) {
        (Register::Boundary, Register::Boundary) => true,
        (Register::Bypass, Register::Bypass) => true,
        (Register::DeviceId, Register::DeviceId) => true,
        (_, _) => false,
    }
}

fn selects_other(register: Register, name: &[u8]) -> bool
    ensures { result ≡ rule.selects_other register name.now }
{
    match instruction_named(name) {
        None => true,
        Some(instruction) => !is_register(register, selected_register(instruction)),
    }
}

fn holds_other(entry: &AccessEntry) -> bool
    ensures { result ≡ list_any (rule.selects_other entry.now.register) entry.now.instructions }
{
    entry
        .instructions
        .as_slice()
        .iter()
        .any(|name| selects_other(entry.register, name.as_bytes()))
}

fn some_holds_other(access: &[AccessEntry]) -> bool
    ensures { result ≡ list_any (λ a. list_any
        (rule.selects_other a.register) a.instructions) access.now }
{
    access.iter().any(|entry| holds_other(entry))
}

/// An instruction has no opcode, comes twice, or selects another register.
pub fn register_fails(alloc: Global, contents: &Contents) -> Result<bool, OutOfMemory>
    ensures { IfOk result (λ fails. fails ≡ rule.register_fails contents.now) }
{
    let access = contents.access.as_slice();
    let names = gather_instructions(alloc, access)?;
    let twice = is_repeated(alloc, &names)?;
    Ok(lacks_opcode(contents.opcodes.as_slice(), access) || twice || some_holds_other(access))
}
