ghost use Rattle.std.specs.Prelude.{◌≡◌, ◌++◌, ℕ, List, IfOk, OnOk};
ghost use Rattle.bsdl_device.specs.Canonical.{canonical_device};
ghost use Rattle.bsdl_device.specs.IsDevice.{IsDevice};
ghost use Rattle.bsdl_device.specs.Spelled.{SpellsText};

use crate::boundary::put_boundary;
use crate::head::{put_head, put_tap};
use crate::instructions::put_registers;
use crate::text::put_all;
use bsdl_device::Device;
use bsdl_device::round_trip::{
    canonical_texts_spell_their_devices, spelled_devices_keep_the_conditions,
};
use std::alloc::Global;
use texts::{OutOfMemory, Text};

#[tactic(auto, unfolding(bsdl_device::specs::Canonical::canonical_device))]
fn put_device(text: &mut Text, device: &Device) -> Result<(), OutOfMemory>
    ensures { OnOk result (text.new ≡ text.old ++ canonical_device device.now) }
{
    put_head(text, device)?;
    put_tap(text, device)?;
    put_registers(text, device)?;
    put_boundary(text, device)?;
    put_all(text, &[b"\";\nend ", device.entity.as_bytes(), b";\n"])
}

/// The canonical text of a device. A device that some text spells is spelled by its canonical text too.
pub fn print_device(alloc: Global, device: &Device) -> Result<Text, OutOfMemory>
    ensures text { IfOk result (λ text. text ≡ canonical_device device.now) }
    ensures spells { IsDevice device.now → IfOk result (λ text. SpellsText text device.now) }

    // Just the devices that keep the conditions are spelled by a text.
    ensures spelled { (bytes : List ℕ) → SpellsText bytes device.now → IsDevice device.now }
{
    canonical_texts_spell_their_devices();
    spelled_devices_keep_the_conditions();
    let mut text = Text::new(alloc);
    put_device(&mut text, device)?;
    Ok(text)
}
