// The registers of a device's own, and the opcodes of their instructions, by their entries.
ghost use Rattle.std.specs.Prelude.{◌≡◌, ◌++◌, [], IfOk, OnOk, count_by, find};
ghost use Rattle.std.specs.Option.{option_copied};
ghost use Rattle.std.specs.List.{cons_option, filter_map};
ghost use Rattle.bsdl_lexicon.specs.Names.{is_same_name};
ghost use Rattle.bsdl_device.specs.RegistersSpelled.{register_of as register_for};

use bsdl_device::OpcodeEntry;
use bsdl_device::registers::{RegisterEntry, TestRegister};
use bsdl_lexicon::same_name;
use std::alloc::Global;
use texts::{OutOfMemory, Row, Text};

// The opcode is that of the entry's instruction.
fn is_opcode_of(entry: &RegisterEntry, opcode: &OpcodeEntry) -> bool
    ensures { result ≡ is_same_name entry.now.instruction opcode.now.name }
{
    same_name(entry.instruction.as_bytes(), opcode.name.as_bytes())
}

/// How many of the opcodes are the entry's instruction's.
pub fn count_of(opcodes: &[OpcodeEntry], entry: &RegisterEntry) -> usize
    ensures { result ≡ count_by (λ o. is_same_name entry.now.instruction o.name) opcodes.now }
{
    opcodes
        .iter()
        .filter(|opcode| is_opcode_of(entry, *opcode))
        .count()
}

// The first opcode of the entry's instruction.
fn opcode_for<'a>(opcodes: &'a [OpcodeEntry], entry: &RegisterEntry) -> Option<&'a OpcodeEntry>
    ensures { option_copied result ≡ find (λ o. is_same_name entry.now.instruction o.name) opcodes.now }
{
    opcodes.iter().find(|opcode| is_opcode_of(entry, *opcode))
}

fn register_of(
    alloc: Global,
    opcodes: &[OpcodeEntry],
    entry: &RegisterEntry,
) -> Result<Option<TestRegister>, OutOfMemory>
    ensures { IfOk result (λ made. made ≡ register_for opcodes.now entry.now) }
{
    match opcode_for(opcodes, entry) {
        None => Ok(None),
        Some(opcode) => Ok(Some(TestRegister {
            name: Text::from_bytes(alloc, entry.name.as_bytes())?,
            instr: Text::from_bytes(alloc, opcode.name.as_bytes())?,
            bits: opcode.bits,
            length: entry.length,
        })),
    }
}

// Adds a register where there is one.
fn push_some(
    made: &mut Row<TestRegister>,
    register: Option<TestRegister>,
) -> Result<(), OutOfMemory>
    ensures { OnOk result (made.new ≡ made.old ++ cons_option register []) }
{
    match register {
        None => Ok(()),
        Some(register) => made.push(register),
    }
}

/// The registers of the entries that have an opcode.
pub fn registers_of(
    alloc: Global,
    opcodes: &[OpcodeEntry],
    entries: &[RegisterEntry],
) -> Result<Row<TestRegister>, OutOfMemory>
    ensures { IfOk result (λ made. made ≡ filter_map (register_for opcodes.now) entries.now) }
{
    let mut made = Row::new(alloc);
    for entry in entries {
        let register = register_of(alloc, opcodes, entry)?;
        push_some(&mut made, register)?;
    }
    Ok(made)
}
