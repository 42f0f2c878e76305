// The instruction register, the identification register and register access.
ghost use Rattle.std.specs.Prelude.{◌≡◌, ◌++◌, filter, OnOk, codes};
ghost use Rattle.bsdl_device.specs.Instructions as words;
ghost use Rattle.bsdl_device.specs.Canonical as text_of;

use crate::text::{put_all, put_attribute};
use bsdl_device::runs::written::{put_bits, put_number, put_pattern};
use bsdl_device::{Device, instruction_word, is_instruction};
use cell_library::{Instr, Opcode};
use texts::{OutOfMemory, Text};

#[tactic(auto, unfolding(bsdl_device::specs::Canonical::opcode_text))]
fn put_opcode(text: &mut Text, opcode: &Opcode) -> Result<(), OutOfMemory>
    ensures { OnOk result (text.new ≡ text.old ++ text_of.opcode_text opcode.now) }
{
    text.append(instruction_word(opcode.instr))?;
    text.append(b" (")?;
    put_pattern(text, opcode.bits)?;
    text.append(b")")
}

fn put_more_opcodes(text: &mut Text, opcodes: &[Opcode]) -> Result<(), OutOfMemory>
    ensures { OnOk result (text.new ≡ text.old
        ++ text_of.each_after text_of.next_string text_of.opcode_text opcodes.now) }
{
    for opcode in opcodes {
        put_all(text, &[b",\" &\n    \""])?;
        put_opcode(text, opcode)?;
    }
    Ok(())
}

/// Adds the opcodes.
#[tactic(auto, unfolding(bsdl_device::specs::Canonical::opcodes_text))]
pub fn put_opcodes(text: &mut Text, opcodes: &[Opcode]) -> Result<(), OutOfMemory>
    ensures { OnOk result (text.new ≡ text.old ++ text_of.opcodes_text opcodes.now) }
{
    let [first, more @ ..] = opcodes else {
        return Ok(());
    };
    put_opcode(text, first)?;
    put_more_opcodes(text, more)
}

#[tactic(auto, unfolding(bsdl_device::specs::Canonical::code_text))]
fn put_code(text: &mut Text, code: u32) -> Result<(), OutOfMemory>
    ensures { OnOk result (text.new ≡ text.old ++ text_of.code_text code) }
{
    put_bits(text, 4, code / (1 << 28))?;
    text.append(b"\" & \"")?;
    put_bits(text, 16, code / (1 << 12))?;
    text.append(b"\" & \"")?;
    put_bits(text, 11, code / 2)?;
    text.append(b"\" & \"")?;
    put_bits(text, 1, code)
}

/// Adds the code, where there is one.
#[tactic(auto, unfolding(bsdl_device::specs::Canonical::idcode_text))]
pub fn put_idcode(text: &mut Text, entity: &[u8], idcode: Option<u32>) -> Result<(), OutOfMemory>
    ensures { OnOk result (text.new ≡ text.old ++ text_of.idcode_text entity.now idcode) }
{
    let Some(code) = idcode else {
        return Ok(());
    };
    put_attribute(text, b"\";\n", b"IDCODE_REGISTER", entity, b"\n    \"")?;
    put_code(text, code)
}

/// Adds the usercode, where there is one.
#[tactic(auto, unfolding(bsdl_device::specs::Canonical::usercode_text))]
pub fn put_usercode(
    text: &mut Text,
    entity: &[u8],
    usercode: Option<u32>,
) -> Result<(), OutOfMemory>
    ensures { OnOk result (text.new ≡ text.old ++ text_of.usercode_text entity.now usercode) }
{
    let Some(code) = usercode else {
        return Ok(());
    };
    put_attribute(text, b"\";\n", b"USERCODE_REGISTER", entity, b"\n    \"")?;
    put_bits(text, 32, code)
}

#[tactic(auto, unfolding(bsdl_device::specs::Canonical::has_opcode))]
fn has_opcode(opcodes: &[Opcode], instr: Instr) -> bool
    ensures { result ≡ text_of.has_opcode opcodes.now instr }
{
    opcodes
        .iter()
        .any(|opcode| is_instruction(instr, opcode.instr))
}

// Adds those of the instructions that the device has, each behind a comma.
fn put_more_instructions(
    text: &mut Text,
    opcodes: &[Opcode],
    list: &[Instr],
) -> Result<(), OutOfMemory>
    ensures { OnOk result (text.new ≡ text.old
        ++ text_of.each_after (codes ", ") words.instruction_word (filter (text_of.has_opcode opcodes.now) list.now)) }
{
    let [first, more @ ..] = list else {
        return Ok(());
    };
    if has_opcode(opcodes, *first) {
        text.append(b", ")?;
        text.append(instruction_word(*first))?;
    }
    put_more_instructions(text, opcodes, more)
}

// Adds those of the instructions that the device has.
#[tactic(auto, unfolding(bsdl_device::specs::Canonical::instructions_text))]
fn put_instructions(text: &mut Text, opcodes: &[Opcode], list: &[Instr]) -> Result<(), OutOfMemory>
    ensures { OnOk result (text.new ≡ text.old ++ text_of.instructions_text opcodes.now list.now) }
{
    let [first, more @ ..] = list else {
        return Ok(());
    };
    if !has_opcode(opcodes, *first) {
        return put_instructions(text, opcodes, more);
    }
    text.append(instruction_word(*first))?;
    put_more_instructions(text, opcodes, more)
}

// The instructions of the identification register behind IDCODE.
#[tactic(auto, unfolding(bsdl_device::specs::Canonical::user_access_text))]
fn user_access(opcodes: &[Opcode]) -> &'static [u8]
    ensures { result.now ≡ text_of.user_access_text opcodes.now }
{
    if has_opcode(opcodes, Instr::Usercode) {
        b", USERCODE"
    } else {
        b""
    }
}

#[tactic(auto, unfolding(bsdl_device::specs::Canonical::device_id_text))]
fn put_device_id(text: &mut Text, opcodes: &[Opcode]) -> Result<(), OutOfMemory>
    ensures { OnOk result (text.new ≡ text.old ++ text_of.device_id_text opcodes.now) }
{
    if has_opcode(opcodes, Instr::Idcode) {
        let user = user_access(opcodes);
        return put_all(text, &[b"),\" &\n    \"DEVICE_ID (IDCODE", user]);
    }
    Ok(())
}

#[tactic(auto, unfolding(bsdl_device::specs::Canonical::boundary_access_text))]
fn put_boundary_access(text: &mut Text) -> Result<(), OutOfMemory>
    ensures { OnOk result (text.new ≡ text.old ++ text_of.boundary_access_text) }
{
    text.append(b"BOUNDARY (")
}

#[tactic(auto, unfolding(bsdl_device::specs::Canonical::bypass_access_text))]
fn put_bypass_access(text: &mut Text) -> Result<(), OutOfMemory>
    ensures { OnOk result (text.new ≡ text.old ++ text_of.bypass_access_text) }
{
    text.append(b"),\" &\n    \"BYPASS (")
}

/// Adds the registers with their instructions.
#[tactic(auto, unfolding(bsdl_device::specs::Canonical::access_text))]
pub fn put_access(text: &mut Text, opcodes: &[Opcode]) -> Result<(), OutOfMemory>
    ensures { OnOk result (text.new ≡ text.old ++ text_of.access_text opcodes.now) }
{
    put_boundary_access(text)?;
    put_instructions(
        text,
        opcodes,
        &[Instr::Extest, Instr::Sample, Instr::Preload],
    )?;
    put_bypass_access(text)?;
    put_instructions(text, opcodes, &[Instr::Bypass, Instr::Highz, Instr::Clamp])?;
    put_device_id(text, opcodes)
}

/// Adds the instruction register, the code and the usercode where there are any, and register access.
#[tactic(auto, unfolding(bsdl_device::specs::Canonical::registers_text))]
pub fn put_registers(text: &mut Text, device: &Device) -> Result<(), OutOfMemory>
    ensures { OnOk result (text.new ≡ text.old ++ text_of.registers_text device.now) }
{
    let entity = device.entity.as_bytes();
    put_attribute(text, b"", b"INSTRUCTION_LENGTH", entity, b" ")?;
    put_number(text, device.length as u64)?;
    put_attribute(text, b";\n", b"INSTRUCTION_OPCODE", entity, b"\n    \"")?;
    put_opcodes(text, device.opcodes.as_slice())?;
    put_attribute(text, b"\";\n", b"INSTRUCTION_CAPTURE", entity, b" \"")?;
    put_pattern(text, device.capture)?;
    put_idcode(text, entity, device.idcode)?;
    put_usercode(text, entity, device.usercode)?;
    put_attribute(text, b"\";\n", b"REGISTER_ACCESS", entity, b"\n    \"")?;
    put_access(text, device.opcodes.as_slice())
}
