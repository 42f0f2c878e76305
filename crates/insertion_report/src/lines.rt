// The lines of the report.
ghost use Rattle.std.specs.Prelude.{◌≡◌, ◌++◌, [], ◌∷◌, map, codes, length, IfOk, OnOk};
ghost use Rattle.std.specs.Fmt.{decimal};
ghost use Rattle.std.specs.List.{flat_map};
ghost use Rattle.output_lines.specs.Lines.{blank_word, words_line};
ghost use Rattle.insertion_report.specs.Reports.{ident_words, name_of, register_words, report_of, size_words};

use bsdl_device::{Device, instruction_word};
use cell_library::Opcode;
use itoa::Buffer;
use output_lines::{add_line, add_word, add_words};
use std::alloc::Global;
use texts::{OutOfMemory, Text};

// A line of a word and a number.
fn put_count(text: &mut Text, first: &[u8], count: u32) -> Result<(), OutOfMemory>
    ensures { OnOk result (text.new ≡ text.old ++ words_line first.now (decimal count ∷ [])) }
{
    let mut digits = Buffer::new();
    add_line(text, first, &[digits.format(count).as_bytes()])
}

// The names of instructions, each behind a blank.
fn put_names(text: &mut Text, opcodes: &[Opcode]) -> Result<(), OutOfMemory>
    ensures { OnOk result (text.new ≡ text.old ++ flat_map blank_word (map name_of opcodes.now)) }
{
    for opcode in opcodes {
        add_word(text, instruction_word(opcode.instr))?;
    }
    Ok(())
}

// The line of the instructions.
#[tactic(auto, unfolding(output_lines::specs::Lines::words_line))]
fn put_instructions(text: &mut Text, opcodes: &[Opcode]) -> Result<(), OutOfMemory>
    ensures { OnOk result (text.new ≡ text.old
        ++ words_line (codes "instructions") (map name_of opcodes.now)) }
{
    text.append(b"instructions")?;
    put_names(text, opcodes)?;
    text.append(b"\n")
}

// A register, and how many bits it has.
fn put_size(text: &mut Text, register: &[u8], bits: usize) -> Result<(), OutOfMemory>
    ensures { OnOk result (text.new ≡ text.old
        ++ (blank_word register.now ++ blank_word (decimal bits))) }
{
    add_word(text, register)?;
    let mut digits = Buffer::new();
    add_word(text, digits.format(bits).as_bytes())
}

// The registers that each device has.
fn put_sizes(text: &mut Text, device: &Device) -> Result<(), OutOfMemory>
    ensures { OnOk result (text.new ≡ text.old ++ flat_map blank_word (size_words device.now)) }
{
    put_size(text, b"INSTRUCTION", device.length as usize)?;
    put_size(text, b"BYPASS", 1)?;
    put_size(text, b"BOUNDARY", device.cells.len())
}

// The identification register, if there is one.
fn put_ident(text: &mut Text, code: Option<u32>) -> Result<(), OutOfMemory>
    ensures { OnOk result (text.new ≡ text.old ++ flat_map blank_word (ident_words code)) }
{
    match code {
        Some(_) => add_words(text, &[b"DEVICE_ID", b"32"]),
        None => Ok(()),
    }
}

// The registers of a device.
fn put_sizes_of(text: &mut Text, device: &Device) -> Result<(), OutOfMemory>
    ensures { OnOk result (text.new ≡ text.old ++ flat_map blank_word (register_words device.now)) }
{
    put_sizes(text, device)?;
    put_ident(text, device.idcode)
}

// The line of the registers.
#[tactic(auto, unfolding(output_lines::specs::Lines::words_line))]
fn put_registers(text: &mut Text, device: &Device) -> Result<(), OutOfMemory>
    ensures { OnOk result (text.new ≡ text.old
        ++ words_line (codes "registers") (register_words device.now)) }
{
    text.append(b"registers")?;
    put_sizes_of(text, device)?;
    text.append(b"\n")
}

/// The report on a device, where the netlist's ports have so many bits, and so many cells are the core's.
pub fn report_text(
    alloc: Global,
    pins: u32,
    kept: u32,
    device: &Device,
) -> Result<Text, OutOfMemory>
    ensures { IfOk result (λ text. text ≡ report_of pins kept device.now) }
{
    let mut text = Text::new(alloc);
    add_line(&mut text, b"entity", &[device.entity.as_bytes()])?;
    put_count(&mut text, b"pins", pins)?;
    put_count(&mut text, b"kept", kept)?;
    put_instructions(&mut text, device.opcodes.as_slice())?;
    put_registers(&mut text, device)?;
    Ok(text)
}
