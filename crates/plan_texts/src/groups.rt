// The groups of lines that a plan has, one behind the other.
ghost use Rattle.std.specs.Prelude.{◌≡◌, codes, IfOk};
ghost use Rattle.plan_texts.specs.Forms as forms;
ghost use Rattle.plan_texts.specs.Reader.{Gives, line_at, front, rest_if, many_at, names_at, tap_at, registers_at, codes_at, pins_at, written_at, linkage_line};

use crate::fault::LineFault;
use crate::lines::{
    capture_line, clock_line, control_line, idcode_line, length_line, name_line, opcode_line,
    pin_line, prefix_line, tap_line, user_line, version_line,
};
use crate::plan::{PinLine, TapLine};
use crate::written::{CodeGroups, Codes, Names, Pins, Registers, TapLines, Written};
use bsdl_device::OpcodeEntry;
use cell_library::{Bits, BoundaryKind};
use std::alloc::Global;
use texts::{OutOfMemory, Row, Text};
use word_cutter::lines::LineReader;

fn read_version(reader: &mut LineReader<'_>) -> Result<u32, LineFault>
    ensures gives { Gives result reader.new.rows (line_at forms.version_line reader.old.rows) }
    ensures end { reader.new.end ≡ reader.old.end }
{
    let Some(line) = reader.line() else {
        return Err(LineFault::Line);
    };
    let Some(version) = version_line(line) else {
        return Err(LineFault::Line);
    };
    reader.pass();
    Ok(version)
}

fn read_name(alloc: Global, reader: &mut LineReader<'_>, key: &[u8]) -> Result<Text, LineFault>
    ensures gives { Gives result reader.new.rows
        (line_at (forms.word_line key.now forms.is_name) reader.old.rows) }
    ensures end { reader.new.end ≡ reader.old.end }
{
    let Some(line) = reader.line() else {
        return Err(LineFault::Line);
    };
    let Some(name) = name_line(key, line) else {
        return Err(LineFault::Line);
    };
    reader.pass();
    Ok(Text::from_bytes(alloc, name)?)
}

fn read_prefix(alloc: Global, reader: &mut LineReader<'_>) -> Result<Text, LineFault>
    ensures gives { Gives result reader.new.rows
        (line_at (forms.word_line (codes "prefix") forms.is_prefix) reader.old.rows) }
    ensures end { reader.new.end ≡ reader.old.end }
{
    let Some(line) = reader.line() else {
        return Err(LineFault::Line);
    };
    let Some(prefix) = prefix_line(line) else {
        return Err(LineFault::Line);
    };
    reader.pass();
    Ok(Text::from_bytes(alloc, prefix)?)
}

#[tactic(auto, unfolding(crate::specs::Reader::names_at))]
fn read_names(alloc: Global, reader: &mut LineReader<'_>) -> Result<Names, LineFault>
    ensures gives { Gives result reader.new.rows (names_at reader.old.rows) }
    ensures end { reader.new.end ≡ reader.old.end }
{
    let version = read_version(reader)?;
    let entity = read_name(alloc, reader, b"entity")?;
    let package = read_name(alloc, reader, b"package")?;
    let prefix = read_prefix(alloc, reader)?;
    Ok(Names {
        version,
        entity,
        package,
        prefix,
    })
}

fn tap_of(alloc: Global, name: &[u8], pin: &[u8]) -> Result<TapLine, OutOfMemory>
    ensures { IfOk result (λ line. line ≡ record { name = name.now; pin = pin.now }) }
{
    Ok(TapLine {
        name: Text::from_bytes(alloc, name)?,
        pin: Text::from_bytes(alloc, pin)?,
    })
}

fn read_tap(alloc: Global, reader: &mut LineReader<'_>, key: &[u8]) -> Result<TapLine, LineFault>
    ensures gives { Gives result reader.new.rows (line_at (forms.tap_line key.now) reader.old.rows) }
    ensures end { reader.new.end ≡ reader.old.end }
{
    let Some(line) = reader.line() else {
        return Err(LineFault::Line);
    };
    let Some((name, pin)) = tap_line(key, line) else {
        return Err(LineFault::Line);
    };
    reader.pass();
    Ok(tap_of(alloc, name, pin)?)
}

#[tactic(auto, unfolding(crate::specs::Reader::tap_at))]
fn read_tap_lines(alloc: Global, reader: &mut LineReader<'_>) -> Result<TapLines, LineFault>
    ensures gives { Gives result reader.new.rows (tap_at reader.old.rows) }
    ensures end { reader.new.end ≡ reader.old.end }
{
    let tck = read_tap(alloc, reader, b"tck")?;
    let tms = read_tap(alloc, reader, b"tms")?;
    let tdi = read_tap(alloc, reader, b"tdi")?;
    let tdo = read_tap(alloc, reader, b"tdo")?;
    let trst = read_tap(alloc, reader, b"trst")?;
    Ok(TapLines {
        tck,
        tms,
        tdi,
        tdo,
        trst,
    })
}

fn read_clock(alloc: Global, reader: &mut LineReader<'_>) -> Result<Text, LineFault>
    ensures gives { Gives result reader.new.rows
        (line_at (forms.word_line (codes "clock") forms.is_clock) reader.old.rows) }
    ensures end { reader.new.end ≡ reader.old.end }
{
    let Some(line) = reader.line() else {
        return Err(LineFault::Line);
    };
    let Some(clock) = clock_line(line) else {
        return Err(LineFault::Line);
    };
    reader.pass();
    Ok(Text::from_bytes(alloc, clock)?)
}

fn read_length(reader: &mut LineReader<'_>) -> Result<u32, LineFault>
    ensures gives { Gives result reader.new.rows (line_at forms.length_line reader.old.rows) }
    ensures end { reader.new.end ≡ reader.old.end }
{
    let Some(line) = reader.line() else {
        return Err(LineFault::Line);
    };
    let Some(length) = length_line(line) else {
        return Err(LineFault::Line);
    };
    reader.pass();
    Ok(length)
}

fn read_capture(reader: &mut LineReader<'_>) -> Result<Bits, LineFault>
    ensures gives { Gives result reader.new.rows (line_at forms.capture_line reader.old.rows) }
    ensures end { reader.new.end ≡ reader.old.end }
{
    let Some(line) = reader.line() else {
        return Err(LineFault::Line);
    };
    let Some(bits) = capture_line(line) else {
        return Err(LineFault::Line);
    };
    reader.pass();
    Ok(bits)
}

#[tactic(auto, unfolding(crate::specs::Reader::registers_at))]
fn read_registers(alloc: Global, reader: &mut LineReader<'_>) -> Result<Registers, LineFault>
    ensures gives { Gives result reader.new.rows (registers_at reader.old.rows) }
    ensures end { reader.new.end ≡ reader.old.end }
{
    let clock = read_clock(alloc, reader)?;
    let length = read_length(reader)?;
    let capture = read_capture(reader)?;
    Ok(Registers {
        clock,
        length,
        capture,
    })
}

fn take_opcode(
    alloc: Global,
    reader: &mut LineReader<'_>,
) -> Result<Option<OpcodeEntry>, OutOfMemory>
    ensures found { IfOk result (λ found. found ≡ front forms.opcode_line reader.old.rows) }
    ensures rows { IfOk result (λ found. reader.new.rows ≡ rest_if found reader.old.rows) }
    ensures end { reader.new.end ≡ reader.old.end }
{
    let Some(line) = reader.line() else {
        return Ok(None);
    };
    let Some((name, bits)) = opcode_line(line) else {
        return Ok(None);
    };
    reader.pass();
    let name = Text::from_bytes(alloc, name)?;
    Ok(Some(OpcodeEntry { name, bits }))
}

#[tactic(auto, using(crate::proofs::Many::many_begins, crate::proofs::Many::many_more, crate::proofs::Many::many_ends, crate::proofs::Many::rest_shorter))]
fn read_opcodes(alloc: Global, reader: &mut LineReader<'_>) -> Result<Row<OpcodeEntry>, OutOfMemory>
    ensures many { IfOk result (λ list. many_at forms.opcode_line reader.old.rows
        ≡ (list, reader.new.rows)) }
    ensures end { reader.new.end ≡ reader.old.end }
{
    let mut list = Row::new(alloc);
    while let Some(entry) = take_opcode(alloc, reader)? {
        list.push(entry)?;
    }
    Ok(list)
}

fn take_idcode(reader: &mut LineReader<'_>) -> Option<CodeGroups>
    ensures found { result ≡ front forms.idcode_line reader.old.rows }
    ensures rows { reader.new.rows ≡ rest_if result reader.old.rows }
    ensures end { reader.new.end ≡ reader.old.end }
{
    let Some(line) = reader.line() else {
        return None;
    };
    let Some(groups) = idcode_line(line) else {
        return None;
    };
    reader.pass();
    Some(groups)
}

fn take_usercode(reader: &mut LineReader<'_>, version: u32) -> Option<Bits>
    ensures found { result ≡ front (forms.user_line version) reader.old.rows }
    ensures rows { reader.new.rows ≡ rest_if result reader.old.rows }
    ensures end { reader.new.end ≡ reader.old.end }
{
    let Some(line) = reader.line() else {
        return None;
    };
    let Some(bits) = user_line(version, line) else {
        return None;
    };
    reader.pass();
    Some(bits)
}

fn read_control(reader: &mut LineReader<'_>) -> Result<BoundaryKind, LineFault>
    ensures gives { Gives result reader.new.rows (line_at forms.control_line reader.old.rows) }
    ensures end { reader.new.end ≡ reader.old.end }
{
    let Some(line) = reader.line() else {
        return Err(LineFault::Line);
    };
    let Some(kind) = control_line(line) else {
        return Err(LineFault::Line);
    };
    reader.pass();
    Ok(kind)
}

#[tactic(auto, unfolding(crate::specs::Reader::codes_at))]
fn read_codes(alloc: Global, reader: &mut LineReader<'_>, version: u32) -> Result<Codes, LineFault>
    ensures gives { Gives result reader.new.rows (codes_at version reader.old.rows) }
    ensures end { reader.new.end ≡ reader.old.end }
{
    let opcodes = read_opcodes(alloc, reader)?;
    if opcodes.is_empty() {
        return Err(LineFault::Line);
    }
    let idcode = take_idcode(reader);
    let usercode = take_usercode(reader, version);
    let control = read_control(reader)?;
    Ok(Codes {
        opcodes,
        idcode,
        usercode,
        control,
    })
}

fn take_pin(alloc: Global, reader: &mut LineReader<'_>) -> Result<Option<PinLine>, OutOfMemory>
    ensures found { IfOk result (λ found. found ≡ front forms.pin_line reader.old.rows) }
    ensures rows { IfOk result (λ found. reader.new.rows ≡ rest_if found reader.old.rows) }
    ensures end { reader.new.end ≡ reader.old.end }
{
    let Some(line) = reader.line() else {
        return Ok(None);
    };
    let Some((port, pin, cell)) = pin_line(line) else {
        return Ok(None);
    };
    reader.pass();
    let port = Text::from_bytes(alloc, port)?;
    let pin = Text::from_bytes(alloc, pin)?;
    Ok(Some(PinLine { port, pin, cell }))
}

#[tactic(auto, using(crate::proofs::Many::many_begins, crate::proofs::Many::many_more, crate::proofs::Many::many_ends, crate::proofs::Many::rest_shorter))]
fn read_pin_lines(alloc: Global, reader: &mut LineReader<'_>) -> Result<Row<PinLine>, OutOfMemory>
    ensures many { IfOk result (λ list. many_at forms.pin_line reader.old.rows
        ≡ (list, reader.new.rows)) }
    ensures end { reader.new.end ≡ reader.old.end }
{
    let mut list = Row::new(alloc);
    while let Some(entry) = take_pin(alloc, reader)? {
        list.push(entry)?;
    }
    Ok(list)
}

fn take_linkage(alloc: Global, reader: &mut LineReader<'_>) -> Result<Option<TapLine>, OutOfMemory>
    ensures found { IfOk result (λ found. found ≡ front linkage_line reader.old.rows) }
    ensures rows { IfOk result (λ found. reader.new.rows ≡ rest_if found reader.old.rows) }
    ensures end { reader.new.end ≡ reader.old.end }
{
    let Some(line) = reader.line() else {
        return Ok(None);
    };
    let Some((name, pin)) = tap_line(b"linkage", line) else {
        return Ok(None);
    };
    reader.pass();
    let linkage = tap_of(alloc, name, pin)?;
    Ok(Some(linkage))
}

#[tactic(auto, using(crate::proofs::Many::many_begins, crate::proofs::Many::many_more, crate::proofs::Many::many_ends, crate::proofs::Many::rest_shorter))]
fn read_linkage(alloc: Global, reader: &mut LineReader<'_>) -> Result<Row<TapLine>, OutOfMemory>
    ensures many { IfOk result (λ list. many_at linkage_line reader.old.rows ≡ (list, reader.new.rows)) }
    ensures end { reader.new.end ≡ reader.old.end }
{
    let mut list = Row::new(alloc);
    while let Some(entry) = take_linkage(alloc, reader)? {
        list.push(entry)?;
    }
    Ok(list)
}

#[tactic(auto, unfolding(crate::specs::Reader::pins_at))]
fn read_pins(alloc: Global, reader: &mut LineReader<'_>) -> Result<Pins, LineFault>
    ensures gives { Gives result reader.new.rows (pins_at reader.old.rows) }
    ensures end { reader.new.end ≡ reader.old.end }
{
    let pins = read_pin_lines(alloc, reader)?;
    let linkage = read_linkage(alloc, reader)?;
    match reader.line() {
        Some(_) => Err(LineFault::Line),
        None => Ok(Pins { pins, linkage }),
    }
}

/// The plan as it is written from here to the end; at a fault the reader stands at it.
#[tactic(auto, unfolding(crate::specs::Reader::written_at))]
pub fn read_written(alloc: Global, reader: &mut LineReader<'_>) -> Result<Written, LineFault>
    ensures gives { Gives result reader.new.rows (written_at reader.old.rows) }
    ensures end { reader.new.end ≡ reader.old.end }
{
    let names = read_names(alloc, reader)?;
    let tap = read_tap_lines(alloc, reader)?;
    let registers = read_registers(alloc, reader)?;
    let codes = read_codes(alloc, reader, names.version)?;
    let pins = read_pins(alloc, reader)?;
    Ok(Written {
        names,
        tap,
        registers,
        codes,
        pins,
    })
}
