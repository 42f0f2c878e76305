// The first rule that a file breaks.
ghost use Rattle.std.specs.Prelude.{◌≡◌, ◌<◌, ◌^◌, IfOk, find, length};
ghost use Rattle.std.specs.Option.{option_map};
ghost use Rattle.bsdl_device.specs.Meanings as meaning;
ghost use Rattle.bsdl_device.specs.Shape as shape;
ghost use Rattle.bsdl_device.specs.Ports as declared;
ghost use Rattle.bsdl_checks.specs.Counts.{all_words, first_word};
ghost use Rattle.bsdl_checks.specs.Ordered as first;

use crate::sections;
use bsdl_device::{Contents, File, MeaningKind};
use bsdl_port_rules::{
    PortTable, capture_fails, declared_ports, idcode_fails, length_fails, name_fails, opcode_fails,
    pin_map_fails, register_fails, tap_fails, usercode_fails,
};
use bsdl_row_rules::{boundary_fails, row_fails};
use std::alloc::Global;
use texts::OutOfMemory;

/// A rule that is broken, and the number of the first word of its section.
#[derive(Clone, Copy, Drop)]
pub struct BrokenRule {
    pub kind: MeaningKind,
    pub word: u64,
}

/// The rules in their order.
const ORDER: [MeaningKind; 11] = [
    MeaningKind::Name,
    MeaningKind::PinMap,
    MeaningKind::Tap,
    MeaningKind::Length,
    MeaningKind::Opcode,
    MeaningKind::Capture,
    MeaningKind::Idcode,
    MeaningKind::Usercode,
    MeaningKind::Register,
    MeaningKind::Boundary,
    MeaningKind::Row,
];

fn word_of(file: &File, kind: MeaningKind) -> u64
    requires { all_words file.now < 2 ^ 64 }
    ensures { result ≡ first_word file.now (first.section_of kind) }
{
    match kind {
        MeaningKind::Name => sections::ports_word(file),
        MeaningKind::PinMap => sections::pin_map_word(file),
        MeaningKind::Tap => sections::tap_word(file),
        MeaningKind::Length => sections::length_word(file),
        MeaningKind::Opcode => sections::opcode_word(file),
        MeaningKind::Capture => sections::capture_word(file),
        MeaningKind::Idcode => sections::opcode_word(file),
        MeaningKind::Usercode => sections::opcode_word(file),
        MeaningKind::Register => sections::access_word(file),
        MeaningKind::Boundary => sections::boundary_length_word(file),
        MeaningKind::Row => sections::boundary_word(file),
        MeaningKind::Ports => 0,
    }
}

fn rule_fails(
    alloc: Global,
    file: &File,
    contents: &Contents,
    ports: &PortTable,
    kind: MeaningKind,
) -> Result<bool, OutOfMemory>
    requires { ports.now ≡ declared.declared_ports file.now }
    ensures { IfOk result (λ fails. fails ≡ first.rule_fails file.now contents.now kind) }
{
    match kind {
        MeaningKind::Name => name_fails(alloc, file, ports.as_slice()),
        MeaningKind::PinMap => pin_map_fails(alloc, file, contents, ports),
        MeaningKind::Tap => tap_fails(alloc, file, ports),
        MeaningKind::Length => Ok(length_fails(file)),
        MeaningKind::Opcode => opcode_fails(alloc, file, contents),
        MeaningKind::Capture => Ok(capture_fails(file, contents)),
        MeaningKind::Idcode => Ok(idcode_fails(contents)),
        MeaningKind::Usercode => Ok(usercode_fails(contents)),
        MeaningKind::Register => register_fails(alloc, contents),
        MeaningKind::Boundary => boundary_fails(alloc, file, contents),
        MeaningKind::Row => row_fails(alloc, file, contents, ports),
        MeaningKind::Ports => Ok(false),
    }
}

// The first of these kinds whose rule is broken.
fn first_of(
    alloc: Global,
    file: &File,
    contents: &Contents,
    ports: &PortTable,
    kinds: &[MeaningKind],
) -> Result<Option<MeaningKind>, OutOfMemory>
    requires { ports.now ≡ declared.declared_ports file.now }
    ensures { IfOk result (λ found. found ≡ find (first.rule_fails file.now contents.now) kinds.now) }
{
    for kind in kinds {
        if rule_fails(alloc, file, contents, ports, *kind)? {
            return Ok(Some(*kind));
        }
    }
    Ok(None)
}

// The kind of the first rule that is broken.
fn first_kind(
    alloc: Global,
    file: &File,
    contents: &Contents,
) -> Result<Option<MeaningKind>, OutOfMemory>
    ensures { IfOk result (λ found. found ≡ find (first.rule_fails file.now contents.now) first.order) }
{
    let ports = declared_ports(alloc, file)?;
    let table = PortTable::of(alloc, &ports)?;
    first_of(alloc, file, contents, &table, &ORDER)
}

/// The first rule that a file breaks, whose words are so few that a slice can hold them.
#[tactic(auto, using(crate::proofs::Ordered::by_kinds, crate::proofs::Ordered::all_words_are))]
pub fn first_fault(
    alloc: Global,
    file: &File,
    contents: &Contents,
) -> Result<Option<BrokenRule>, OutOfMemory>
    requires { length (shape.file_words file.now) < 2 ^ 64 }
    ensures { IfOk result (λ found. option_map first.told found
        ≡ meaning.first_meaning_fault file.now contents.now) }
{
    match first_kind(alloc, file, contents)? {
        None => Ok(None),
        Some(kind) => Ok(Some(BrokenRule {
            kind,
            word: word_of(file, kind),
        })),
    }
}
