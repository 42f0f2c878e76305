// The opcodes and the entries of the design's own registers.
ghost use Rattle.std.specs.Prelude.{◌≡◌, ◌++◌, OnOk};
ghost use Rattle.bsdl_device.specs.RegistersCanonical as text_of;

use crate::text::put_all;
use bsdl_device::registers::TestRegister;
use bsdl_device::runs::written::{put_number, put_pattern};
use texts::{OutOfMemory, Text};

#[tactic(auto, unfolding(bsdl_device::specs::RegistersCanonical::own_opcode_text))]
fn put_opcode(text: &mut Text, register: &TestRegister) -> Result<(), OutOfMemory>
    ensures { OnOk result (text.new ≡ text.old ++ text_of.own_opcode_text register.now) }
{
    put_all(text, &[b",\" &\n    \""])?;
    text.append(register.instr.as_bytes())?;
    text.append(b" (")?;
    put_pattern(text, register.bits)?;
    text.append(b")")
}

/// Adds the opcodes, each behind a comma and in a string of its own.
#[tactic(auto, unfolding(bsdl_device::specs::RegistersCanonical::own_opcodes_text))]
pub fn put_own_opcodes(text: &mut Text, registers: &[TestRegister]) -> Result<(), OutOfMemory>
    ensures { OnOk result (text.new ≡ text.old ++ text_of.own_opcodes_text registers.now) }
{
    for register in registers {
        put_opcode(text, register)?;
    }
    Ok(())
}

#[tactic(auto, unfolding(bsdl_device::specs::RegistersCanonical::own_access_text))]
fn put_access(text: &mut Text, register: &TestRegister) -> Result<(), OutOfMemory>
    ensures { OnOk result (text.new ≡ text.old ++ text_of.own_access_text register.now) }
{
    text.append(b")")?;
    put_all(text, &[b",\" &\n    \""])?;
    text.append(register.name.as_bytes())?;
    text.append(b"[")?;
    put_number(text, register.length as u64)?;
    text.append(b"] (")?;
    text.append(register.instr.as_bytes())
}

/// Adds the entries, each behind the parenthesis that ends the one before it and in a string of its own.
#[tactic(auto, unfolding(bsdl_device::specs::RegistersCanonical::own_accesses_text))]
pub fn put_own_accesses(text: &mut Text, registers: &[TestRegister]) -> Result<(), OutOfMemory>
    ensures { OnOk result (text.new ≡ text.old ++ text_of.own_accesses_text registers.now) }
{
    for register in registers {
        put_access(text, register)?;
    }
    Ok(())
}
