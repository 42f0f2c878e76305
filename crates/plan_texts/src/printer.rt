// The canonical text of a plan, line by line.
ghost use Rattle.std.specs.Prelude.{◌≡◌, ◌++◌, ◌∷◌, [], map, codes, IfOk, OnOk};
ghost use Rattle.std.specs.Fmt.{decimal};
ghost use Rattle.bsdl_device.specs.Canonical.{bits_text, pattern_text};
ghost use Rattle.word_cutter.specs.Rows.{row_text, rows_text};
ghost use Rattle.plan_texts.specs.Grammar as grammar;
ghost use Rattle.plan_texts.specs.Canonical as canonical;

use crate::plan::{PinLine, Plan, TapLine};
use bsdl_device::instruction_word;
use bsdl_device::runs::written::{cell_word, put_bits, put_number, put_pattern};
use cell_library::{Bits, Opcode};
use std::alloc::Global;
use texts::{OutOfMemory, Text};
use word_cutter::lines::{
    put_five, put_four, put_three, put_two, rows_of_texts_are_rows, texts_of_rows_read_back,
};

fn pattern_word(alloc: Global, bits: Bits) -> Result<Text, OutOfMemory>
    ensures { IfOk result (λ word. word ≡ pattern_text bits) }
{
    let mut word = Text::new(alloc);
    put_pattern(&mut word, bits)?;
    Ok(word)
}

fn bits_word(alloc: Global, len: u32, value: u32) -> Result<Text, OutOfMemory>
    ensures { IfOk result (λ word. word ≡ bits_text len value) }
{
    let mut word = Text::new(alloc);
    put_bits(&mut word, len, value)?;
    Ok(word)
}

fn number_word(alloc: Global, number: u32) -> Result<Text, OutOfMemory>
    ensures { IfOk result (λ word. word ≡ decimal number) }
{
    let mut word = Text::new(alloc);
    put_number(&mut word, number as u64)?;
    Ok(word)
}

fn put_tap(text: &mut Text, key: &[u8], line: &TapLine) -> Result<(), OutOfMemory>
    ensures { OnOk result (text.new ≡ text.old ++ row_text (grammar.tap_words key.now line.now)) }
{
    put_three(text, key, line.name.as_bytes(), line.pin.as_bytes())
}

fn version_word(version: u32) -> &'static [u8]
    ensures { result.now ≡ canonical.version_word version }
{
    if version == 2 { b"2" } else { b"1" }
}

fn put_names(text: &mut Text, plan: &Plan) -> Result<(), OutOfMemory>
    ensures { OnOk result (text.new ≡ text.old ++ row_text (grammar.keyed (codes "plan") (canonical.version_word plan.now.version))
        ++ row_text (grammar.keyed (codes "entity") plan.now.entity)
        ++ row_text (grammar.keyed (codes "package") plan.now.«package»)
        ++ row_text (grammar.keyed (codes "prefix") plan.now.prefix)) }
{
    put_two(text, b"plan", version_word(plan.version))?;
    put_two(text, b"entity", plan.entity.as_bytes())?;
    put_two(text, b"package", plan.package.as_bytes())?;
    put_two(text, b"prefix", plan.prefix.as_bytes())
}

fn put_tap_lines(text: &mut Text, plan: &Plan) -> Result<(), OutOfMemory>
    ensures { OnOk result (text.new ≡ text.old ++ row_text (grammar.tap_words (codes "tck") plan.now.tck)
        ++ row_text (grammar.tap_words (codes "tms") plan.now.tms)
        ++ row_text (grammar.tap_words (codes "tdi") plan.now.tdi)
        ++ row_text (grammar.tap_words (codes "tdo") plan.now.tdo)
        ++ row_text (grammar.tap_words (codes "trst") plan.now.trst)) }
{
    put_tap(text, b"tck", &plan.tck)?;
    put_tap(text, b"tms", &plan.tms)?;
    put_tap(text, b"tdi", &plan.tdi)?;
    put_tap(text, b"tdo", &plan.tdo)?;
    put_tap(text, b"trst", &plan.trst)
}

fn put_registers(alloc: Global, text: &mut Text, plan: &Plan) -> Result<(), OutOfMemory>
    ensures { OnOk result (text.new ≡ text.old ++ row_text (grammar.keyed (codes "clock") plan.now.clock)
        ++ row_text (grammar.keyed (codes "length") (decimal plan.now.length))
        ++ row_text (grammar.keyed (codes "capture") (pattern_text plan.now.capture))) }
{
    let length = number_word(alloc, plan.length)?;
    let capture = pattern_word(alloc, plan.capture)?;
    put_two(text, b"clock", plan.clock.as_bytes())?;
    put_two(text, b"length", length.as_bytes())?;
    put_two(text, b"capture", capture.as_bytes())
}

fn put_head(alloc: Global, text: &mut Text, plan: &Plan) -> Result<(), OutOfMemory>
    ensures { OnOk result (text.new ≡ text.old ++ rows_text (canonical.head_rows plan.now)) }
{
    put_names(text, plan)?;
    put_tap_lines(text, plan)?;
    put_registers(alloc, text, plan)
}

fn put_opcode(alloc: Global, text: &mut Text, opcode: &Opcode) -> Result<(), OutOfMemory>
    ensures { OnOk result (text.new ≡ text.old ++ row_text (canonical.opcode_row opcode.now)) }
{
    let bits = pattern_word(alloc, opcode.bits)?;
    put_three(
        text,
        b"opcode",
        instruction_word(opcode.instr),
        bits.as_bytes(),
    )
}

fn put_opcodes(alloc: Global, text: &mut Text, opcodes: &[Opcode]) -> Result<(), OutOfMemory>
    ensures { OnOk result (text.new ≡ text.old ++ rows_text (map canonical.opcode_row opcodes.now)) }
{
    for opcode in opcodes {
        put_opcode(alloc, text, opcode)?;
    }
    Ok(())
}

fn put_code(alloc: Global, text: &mut Text, code: u32) -> Result<(), OutOfMemory>
    ensures { OnOk result (text.new ≡ text.old ++ row_text (canonical.code_row code)) }
{
    let version = bits_word(alloc, 4, code / 268_435_456)?;
    let part = bits_word(alloc, 16, code / 4096)?;
    let manufacturer = bits_word(alloc, 11, code / 2)?;
    let mark = bits_word(alloc, 1, code)?;
    put_five(
        text,
        b"idcode",
        version.as_bytes(),
        part.as_bytes(),
        manufacturer.as_bytes(),
        mark.as_bytes(),
    )
}

#[tactic(auto, using(crate::proofs::Printed::append_none))]
fn put_idcode(alloc: Global, text: &mut Text, idcode: Option<u32>) -> Result<(), OutOfMemory>
    ensures { OnOk result (text.new ≡ text.old ++ rows_text (canonical.code_rows_of idcode)) }
{
    match idcode {
        None => Ok(()),
        Some(code) => put_code(alloc, text, code),
    }
}

#[tactic(auto, using(crate::proofs::Printed::append_none))]
fn put_usercode(alloc: Global, text: &mut Text, usercode: Option<u32>) -> Result<(), OutOfMemory>
    ensures { OnOk result (text.new ≡ text.old ++ rows_text (canonical.user_rows_of usercode)) }
{
    match usercode {
        None => Ok(()),
        Some(code) => {
            let bits = bits_word(alloc, 32, code)?;
            put_two(text, b"usercode", bits.as_bytes())
        }
    }
}

fn put_pins(text: &mut Text, pins: &[PinLine]) -> Result<(), OutOfMemory>
    ensures { OnOk result (text.new ≡ text.old ++ rows_text (map grammar.pin_words pins.now)) }
{
    for line in pins {
        put_four(
            text,
            b"pin",
            line.port.as_bytes(),
            line.pin.as_bytes(),
            cell_word(line.cell),
        )?;
    }
    Ok(())
}

fn put_linkage(text: &mut Text, linkage: &[TapLine]) -> Result<(), OutOfMemory>
    ensures { OnOk result (text.new ≡ text.old
        ++ rows_text (map (grammar.tap_words (codes "linkage")) linkage.now)) }
{
    for line in linkage {
        put_tap(text, b"linkage", line)?;
    }
    Ok(())
}

fn put_plan(alloc: Global, text: &mut Text, plan: &Plan) -> Result<(), OutOfMemory>
    ensures { OnOk result (text.new ≡ text.old ++ canonical.canonical_plan plan.now) }
{
    put_head(alloc, text, plan)?;
    put_opcodes(alloc, text, plan.opcodes.as_slice())?;
    put_idcode(alloc, text, plan.idcode)?;
    put_usercode(alloc, text, plan.usercode)?;
    put_two(text, b"control", cell_word(plan.control))?;
    put_pins(text, plan.pins.as_slice())?;
    put_linkage(text, plan.linkage.as_slice())
}

/// The canonical text of a plan, whether or not any bytes spell it.
pub fn write_plan(alloc: Global, plan: &Plan) -> Result<Text, OutOfMemory>
    ensures { IfOk result (λ text. text ≡ canonical.canonical_plan plan.now) }
{
    let mut text = Text::new(alloc);
    put_plan(alloc, &mut text, plan)?;
    Ok(text)
}

/// The canonical text of a plan that some bytes spell.
pub fn print_plan(alloc: Global, plan: &Plan) -> Result<Text, OutOfMemory>
    requires { canonical.IsPlan plan.now }
    ensures canonical { IfOk result (λ text. text ≡ canonical.canonical_plan plan.now) }
    ensures reads_back { IfOk result (λ text. grammar.SpellsPlan text plan.now) }
{
    rows_of_texts_are_rows();
    texts_of_rows_read_back();
    write_plan(alloc, plan)
}
