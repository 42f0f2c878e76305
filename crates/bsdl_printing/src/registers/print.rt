ghost use Rattle.std.specs.Prelude.{◌≡◌, ◌++◌, IfOk, OnOk};
ghost use Rattle.bsdl_device.specs.RegistersCanonical as text_of;

use crate::boundary::put_boundary;
use crate::head::{put_head, put_tap};
use crate::instructions::{put_access, put_idcode, put_opcodes, put_usercode};
use crate::registers::registers::{put_own_accesses, put_own_opcodes};
use crate::text::{put_all, put_attribute};
use bsdl_device::Device;
use bsdl_device::registers::Extended;
use bsdl_device::runs::written::{put_number, put_pattern};
use std::alloc::Global;
use texts::{OutOfMemory, Text};

// Adds what stands up to the profile's opcodes.
#[tactic(auto, unfolding(bsdl_device::specs::RegistersCanonical::front_text))]
fn put_front(text: &mut Text, device: &Device) -> Result<(), OutOfMemory>
    ensures { OnOk result (text.new ≡ text.old ++ text_of.front_text device.now) }
{
    let entity = device.entity.as_bytes();
    put_head(text, device)?;
    put_tap(text, device)?;
    put_attribute(text, b"", b"INSTRUCTION_LENGTH", entity, b" ")?;
    put_number(text, device.length as u64)?;
    put_attribute(text, b";\n", b"INSTRUCTION_OPCODE", entity, b"\n    \"")?;
    put_opcodes(text, device.opcodes.as_slice())
}

// Adds what stands behind the opcodes, up to the profile's registers.
#[tactic(auto, unfolding(bsdl_device::specs::RegistersCanonical::middle_text))]
fn put_middle(text: &mut Text, device: &Device) -> Result<(), OutOfMemory>
    ensures { OnOk result (text.new ≡ text.old ++ text_of.middle_text device.now) }
{
    let entity = device.entity.as_bytes();
    put_attribute(text, b"\";\n", b"INSTRUCTION_CAPTURE", entity, b" \"")?;
    put_pattern(text, device.capture)?;
    put_idcode(text, entity, device.idcode)?;
    put_usercode(text, entity, device.usercode)?;
    put_attribute(text, b"\";\n", b"REGISTER_ACCESS", entity, b"\n    \"")?;
    put_access(text, device.opcodes.as_slice())
}

// Adds what stands behind the registers.
#[tactic(auto, unfolding(bsdl_device::specs::RegistersCanonical::back_text))]
fn put_back(text: &mut Text, device: &Device) -> Result<(), OutOfMemory>
    ensures { OnOk result (text.new ≡ text.old ++ text_of.back_text device.now) }
{
    put_boundary(text, device)?;
    put_all(text, &[b"\";\nend ", device.entity.as_bytes(), b";\n"])
}

#[tactic(auto, unfolding(bsdl_device::specs::RegistersCanonical::canonical_extended))]
fn put_extended(text: &mut Text, extended: &Extended) -> Result<(), OutOfMemory>
    ensures { OnOk result (text.new ≡ text.old ++ text_of.canonical_extended extended.now) }
{
    let registers = extended.registers.as_slice();
    put_front(text, &extended.device)?;
    put_own_opcodes(text, registers)?;
    put_middle(text, &extended.device)?;
    put_own_accesses(text, registers)?;
    put_back(text, &extended.device)
}

/// The canonical text of a device and of the registers that it has besides.
pub fn print_extended(alloc: Global, extended: &Extended) -> Result<Text, OutOfMemory>
    ensures { IfOk result (λ text. text ≡ text_of.canonical_extended extended.now) }
{
    let mut text = Text::new(alloc);
    put_extended(&mut text, extended)?;
    Ok(text)
}
