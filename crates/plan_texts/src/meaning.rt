// The plan of what is written.
ghost use Rattle.std.specs.Prelude.{◌≡◌, IfOk};
ghost use Rattle.std.specs.List.{filter_map};
ghost use Rattle.std.specs.Option.{option_map};
ghost use Rattle.plan_texts.specs.Meaning as meaning;
ghost use Rattle.plan_texts.specs.Rules as rules;

use crate::instructions::instruction_of;
use crate::plan::Plan;
use crate::rules::code_of;
use crate::written::{CodeGroups, Codes, Names, Pins, Registers, TapLines, Written};
use bsdl_device::OpcodeEntry;
use cell_library::{Bits, Opcode};
use std::alloc::Global;
use texts::{OutOfMemory, Row};

fn typed(version: u32, opcode: &OpcodeEntry) -> Option<Opcode>
    ensures { result ≡ meaning.typed (rules.instructions_of version) opcode.now }
{
    match instruction_of(version, opcode.name.as_bytes()) {
        None => None,
        Some(instr) => Some(Opcode {
            instr,
            bits: opcode.bits,
        }),
    }
}

fn typed_opcodes(
    alloc: Global,
    version: u32,
    opcodes: &[OpcodeEntry],
) -> Result<Row<Opcode>, OutOfMemory>
    ensures { IfOk result (λ list. list
        ≡ filter_map (meaning.typed (rules.instructions_of version)) opcodes.now) }
{
    let mut list = Row::new(alloc);
    for opcode in opcodes {
        if let Some(opcode) = typed(version, opcode) {
            list.push(opcode)?;
        }
    }
    Ok(list)
}

fn idcode_of(groups: Option<CodeGroups>) -> Option<u32>
    ensures { result ≡ option_map rules.code_of groups }
{
    match groups {
        None => None,
        Some(groups) => Some(code_of(groups)),
    }
}

fn usercode_of(bits: Option<Bits>) -> Option<u32>
    ensures { result ≡ option_map meaning.value_of bits }
{
    match bits {
        None => None,
        Some(bits) => Some(bits.value),
    }
}

/// The plan of what is written.
pub fn plan_of(alloc: Global, written: Written) -> Result<Plan, OutOfMemory>
    ensures { IfOk result (λ plan. plan ≡ meaning.plan_of written) }
{
    let opcodes = typed_opcodes(
        alloc,
        written.names.version,
        written.codes.opcodes.as_slice(),
    )?;
    let idcode = idcode_of(written.codes.idcode);
    let usercode = usercode_of(written.codes.usercode);
    let Written {
        names,
        tap,
        registers,
        codes,
        pins,
    } = written;
    Ok(Plan {
        version: names.version,
        entity: names.entity,
        package: names.package,
        prefix: names.prefix,
        tck: tap.tck,
        tms: tap.tms,
        tdi: tap.tdi,
        tdo: tap.tdo,
        trst: tap.trst,
        clock: registers.clock,
        length: registers.length,
        capture: registers.capture,
        opcodes,
        idcode,
        usercode,
        control: codes.control,
        pins: pins.pins,
        linkage: pins.linkage,
    })
}
