// The rules on a plan's instructions, its identification code and its usercode.
ghost use Rattle.std.specs.Prelude.{◌≡◌, [], IfOk};
ghost use Rattle.std.specs.List.{list_any};
ghost use Rattle.bsdl_device.specs.Checks as check;
ghost use Rattle.texts.specs.First.{first_in};
ghost use Rattle.texts.specs.Repeated.{texts};
ghost use Rattle.plan_texts.specs.Rules as rules;

use crate::fault::PlanFault;
use crate::instructions::instruction_of;
use crate::written::{CodeGroups, Written};
use bsdl_device::runs::opcodes::{
    bypass_is_not_ones, clash, code_is_barred, has_instruction, has_other_length,
};
use bsdl_device::{OpcodeEntry, REQUIRED_INSTRUCTIONS, instruction_word};
use cell_library::{Bits, Instr};
use std::alloc::Global;
use texts::first_faults::first_repeated;
use texts::{OutOfMemory, Row, Text};

fn gather_names<'a>(alloc: Global, opcodes: &'a [OpcodeEntry]) -> Result<Vec<&'a [u8]>, OutOfMemory>
    ensures { IfOk result (λ names. texts names.items ≡ rules.names_of opcodes.now) }
{
    let mut names = Vec::new(alloc);
    for opcode in opcodes {
        names.push(opcode.name.as_bytes())?;
    }
    Ok(names)
}

fn find_twice(alloc: Global, opcodes: &[OpcodeEntry]) -> Result<Option<PlanFault>, OutOfMemory>
    ensures { IfOk result (λ found. found ≡ rules.twice_fault opcodes.now) }
{
    let names = gather_names(alloc, opcodes)?;
    match first_repeated(alloc, &names)? {
        None => Ok(None),
        Some(name) => Ok(Some(PlanFault::PlanTwice {
            word: Text::from_bytes(alloc, name)?,
        })),
    }
}

fn is_known(version: u32, opcode: &OpcodeEntry) -> bool
    ensures { result ≡ rules.is_known (rules.instructions_of version) opcode.now }
{
    instruction_of(version, opcode.name.as_bytes()).is_some()
}

fn copy_of(alloc: Global, opcode: &OpcodeEntry) -> Result<OpcodeEntry, OutOfMemory>
    ensures { IfOk result (λ copy. copy ≡ opcode.now) }
{
    Ok(OpcodeEntry {
        name: Text::from_bytes(alloc, opcode.name.as_bytes())?,
        bits: opcode.bits,
    })
}

// Those of the profile's instructions; where none stands twice, there are eight at most.
fn known(
    alloc: Global,
    version: u32,
    opcodes: &[OpcodeEntry],
) -> Result<Row<OpcodeEntry>, OutOfMemory>
    ensures { IfOk result (λ list. list ≡ rules.known (rules.instructions_of version) opcodes.now) }
{
    let mut list = Row::new(alloc);
    for opcode in opcodes {
        if is_known(version, opcode) {
            list.push(copy_of(alloc, opcode)?)?;
        }
    }
    Ok(list)
}

fn clashes_with(earlier: &[OpcodeEntry], opcode: &OpcodeEntry) -> bool
    ensures { result ≡ list_any (λ e. check.opcodes_clash e opcode.now) earlier.now }
{
    earlier.iter().any(|other| clash(other, opcode))
}

fn misfits(length: u32, earlier: &[OpcodeEntry], opcode: &OpcodeEntry) -> bool
    ensures { result ≡ rules.misfits length earlier.now opcode.now }
{
    has_other_length(length, opcode.bits)
        || bypass_is_not_ones(opcode)
        || clashes_with(earlier, opcode)
}

fn find_misfit(
    alloc: Global,
    length: u32,
    opcodes: &[OpcodeEntry],
) -> Result<Option<PlanFault>, OutOfMemory>
    ensures { IfOk result (λ found. found ≡ rules.misfit_after length [] opcodes.now) }
{
    for i in 0..opcodes.len() {
        if misfits(length, &opcodes[..i], &opcodes[i]) {
            let word = Text::from_bytes(alloc, opcodes[i].name.as_bytes())?;
            return Ok(Some(PlanFault::PlanOpcode { word }));
        }
    }
    Ok(None)
}

fn find_missing(alloc: Global, opcodes: &[OpcodeEntry]) -> Result<Option<PlanFault>, OutOfMemory>
    ensures { IfOk result (λ found. found ≡ rules.missing_fault opcodes.now) }
{
    for instruction in &REQUIRED_INSTRUCTIONS {
        if !has_instruction(opcodes, *instruction) {
            let word = Text::from_bytes(alloc, instruction_word(*instruction))?;
            return Ok(Some(PlanFault::PlanOpcode { word }));
        }
    }
    Ok(None)
}

fn capture_fault(
    alloc: Global,
    length: u32,
    capture: Bits,
) -> Result<Option<PlanFault>, OutOfMemory>
    ensures { IfOk result (λ found. found ≡ rules.capture_fault length capture) }
{
    if has_other_length(length, capture) || capture.value % 4 != 1 {
        let word = Text::from_bytes(alloc, b"capture")?;
        return Ok(Some(PlanFault::PlanOpcode { word }));
    }
    Ok(None)
}

fn opcode_fault(
    alloc: Global,
    length: u32,
    capture: Bits,
    opcodes: &[OpcodeEntry],
) -> Result<Option<PlanFault>, OutOfMemory>
    ensures { IfOk result (λ found. found ≡ rules.opcode_fault length capture opcodes.now) }
{
    match find_misfit(alloc, length, opcodes)? {
        Some(fault) => return Ok(Some(fault)),
        None => {}
    }
    match find_missing(alloc, opcodes)? {
        Some(fault) => return Ok(Some(fault)),
        None => {}
    }
    capture_fault(alloc, length, capture)
}

fn groups_misfit(groups: CodeGroups) -> bool
    ensures { result ≡ rules.groups_misfit groups }
{
    has_other_length(4, groups.version)
        || has_other_length(16, groups.part)
        || has_other_length(11, groups.manufacturer)
        || has_other_length(1, groups.mark)
}

/// The code of its groups.
pub fn code_of(groups: CodeGroups) -> u32
    ensures { result ≡ rules.code_of groups }
{
    let version = groups.version.value as u64 * 268_435_456;
    let part = groups.part.value as u64 * 4096;
    let manufacturer = groups.manufacturer.value as u64 * 2;
    let sum = version + part + manufacturer + groups.mark.value as u64;
    (sum % 4_294_967_296) as u32
}

fn idcode_fault(opcodes: &[OpcodeEntry], groups: Option<CodeGroups>) -> Option<PlanFault>
    ensures { result ≡ rules.idcode_fault opcodes.now groups }
{
    let reads = has_instruction(opcodes, Instr::Idcode);
    let fails = match groups {
        None => reads,
        Some(groups) => !reads || groups_misfit(groups) || code_is_barred(code_of(groups)),
    };
    if fails {
        Some(PlanFault::PlanIdcode)
    } else {
        None
    }
}

fn usercode_fault(
    version: u32,
    opcodes: &[OpcodeEntry],
    usercode: Option<Bits>,
) -> Option<PlanFault>
    ensures { result ≡ rules.usercode_fault version opcodes.now usercode }
{
    if version != 2 {
        return None;
    }
    let reads = has_instruction(opcodes, Instr::Usercode);
    let fails = match usercode {
        None => reads,
        Some(bits) => {
            !reads || !has_instruction(opcodes, Instr::Idcode) || has_other_length(32, bits)
        }
    };
    if fails {
        Some(PlanFault::PlanUsercode)
    } else {
        None
    }
}

fn find_unknown(
    alloc: Global,
    version: u32,
    opcodes: &[OpcodeEntry],
) -> Result<Option<PlanFault>, OutOfMemory>
    ensures { IfOk result (λ found. found
        ≡ first_in (rules.unknown_fault (rules.instructions_of version)) opcodes.now) }
{
    for opcode in opcodes {
        if !is_known(version, opcode) {
            let word = Text::from_bytes(alloc, opcode.name.as_bytes())?;
            return Ok(Some(PlanFault::PlanInstruction { word }));
        }
    }
    Ok(None)
}

/// The first rule that the plan breaks.
pub fn find_rule_fault(alloc: Global, written: &Written) -> Result<Option<PlanFault>, OutOfMemory>
    ensures { IfOk result (λ found. found ≡ rules.rule_fault written.now) }
{
    let opcodes = written.codes.opcodes.as_slice();
    match find_twice(alloc, opcodes)? {
        Some(fault) => return Ok(Some(fault)),
        None => {}
    }
    let version = written.names.version;
    let known = known(alloc, version, opcodes)?;
    let registers = &written.registers;
    match opcode_fault(alloc, registers.length, registers.capture, known.as_slice())? {
        Some(fault) => return Ok(Some(fault)),
        None => {}
    }
    match idcode_fault(known.as_slice(), written.codes.idcode) {
        Some(fault) => return Ok(Some(fault)),
        None => {}
    }
    match usercode_fault(version, known.as_slice(), written.codes.usercode) {
        Some(fault) => return Ok(Some(fault)),
        None => {}
    }
    find_unknown(alloc, version, opcodes)
}
