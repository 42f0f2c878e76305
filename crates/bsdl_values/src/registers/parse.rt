ghost use Rattle.std.specs.Prelude.{◌≡◌, ◌<◌, ◌^◌, IfErr, IfOk, OnOk, None, IsFalse};
ghost use Rattle.bsdl_checks.specs.Counts.{all_words};
ghost use Rattle.bsdl_lexicon.specs.Words.{plain};
ghost use Rattle.bsdl_device.specs.Meanings.{first_meaning_fault};
ghost use Rattle.bsdl_device.specs.Spelled.{HasContents, SpellsFile};
ghost use Rattle.bsdl_device.specs.declared.registers.values.Extended.{Extended as ExtendedOf};
ghost use Rattle.bsdl_device.specs.RegistersSpelled.{SpellsExtended};
ghost use Rattle.bsdl_device.specs.RegistersFaults.{IsExtendedFault};
ghost use Rattle.bsdl_values.specs.BaseFile.{HasParted, IsPartedFrom, fails_at, registers_for};
ghost use Rattle.bsdl_values.specs.RegistersFaultKinds as kinds;

use crate::registers::places::string_word;
use bsdl_checks::registers::{PartedContents, part_contents, registers_fail, registers_of};
use bsdl_checks::{device, first_fault, sections};
use bsdl_contents::entries::{Parted, without_own};
use bsdl_contents::{ContentsFault, read_contents, strings_hold_one_contents};
use bsdl_device::reading::spells_one_file;
use bsdl_device::registers::{Extended, ExtendedFault, TestRegister};
use bsdl_device::{Contents, File};
use bsdl_files::{FileFault, read_file};
use bsdl_lexicon::BsdlWords;
use std::alloc::Global;
use texts::{OutOfMemory, Row};

// A fault of the file as one of the device.
fn file_fault(fault: FileFault) -> ExtendedFault
    ensures { result ≡ kinds.file_fault fault }
{
    match fault {
        FileFault::BsdlSyntax { place, word } => ExtendedFault::BsdlSyntax { place, word },
        FileFault::OutOfMemory => ExtendedFault::OutOfMemory,
    }
}

// The file of the words. It has as many words as they are, which a slice holds.
fn file_of(alloc: Global, words: &BsdlWords) -> Result<File, ExtendedFault>
    ensures spelled { IfOk result (SpellsFile (plain words.now.list)) }
    ensures few { IfOk result (λ f. all_words f < 2 ^ 64) }
    ensures fault { IfErr result (IsExtendedFault words.now) }
{
    let count = words.len();
    prove!(count <= usize::MAX);
    match read_file(alloc, words) {
        Ok(file) => Ok(file),
        Err(fault) => Err(file_fault(fault)),
    }
}

// The file of the words without the entries of the design's own registers.
fn parted_of(alloc: Global, words: &BsdlWords) -> Result<Parted, ExtendedFault>
    ensures parted { IfOk result (HasParted words.now.list) }
    ensures fault { IfErr result (IsExtendedFault words.now) }
{
    let file = file_of(alloc, words)?;
    Ok(without_own(alloc, file)?)
}

// What the file's strings hold.
fn contents_of(alloc: Global, words: &BsdlWords, parts: &Parted) -> Result<Contents, ExtendedFault>
    requires parted { HasParted words.now.list parts.now }
    ensures held { IfOk result (HasContents parts.now.file) }
    ensures fault { IfErr result (IsExtendedFault words.now) }
{
    spells_one_file();
    strings_hold_one_contents();
    match read_contents(alloc, &parts.file) {
        Ok(contents) => Ok(contents),
        Err(ContentsFault::Section(section)) => {
            let word = string_word(&parts.file, section);
            let place = words.place_of(word as usize);
            Err(ExtendedFault::BsdlSyntax { place, word })
        }
        Err(ContentsFault::OutOfMemory) => Err(ExtendedFault::OutOfMemory),
    }
}

// The base breaks no rule.
fn check_base(
    alloc: Global,
    words: &BsdlWords,
    parts: &Parted,
    found: &PartedContents,
) -> Result<(), ExtendedFault>
    requires parted { HasParted words.now.list parts.now }
    requires found { IsPartedFrom parts.now found.now }
    ensures kept { OnOk result (first_meaning_fault parts.now.file found.now.contents ≡ None) }
    ensures fault { IfErr result (IsExtendedFault words.now) }
{
    spells_one_file();
    strings_hold_one_contents();
    match first_fault(alloc, &parts.file, &found.contents)? {
        None => Ok(()),
        Some(rule) => Err(ExtendedFault::BsdlMeaning {
            kind: rule.kind,
            place: words.place_of(rule.word as usize),
        }),
    }
}

// Whether the registers of the design's own break a rule.
fn registers_break_rules(parts: &Parted, found: &PartedContents) -> bool
    ensures { result ≡ fails_at parts.now.file found.now parts.now }
{
    let base = found.contents.opcodes.as_slice();
    let own = found.own.as_slice();
    let entries = parts.entries.as_slice();
    registers_fail(parts.file.length.value, base, own, entries)
}

// The registers of the design's own break no rule.
fn check_registers(
    words: &BsdlWords,
    parts: &Parted,
    found: &PartedContents,
) -> Result<(), ExtendedFault>
    requires parted { HasParted words.now.list parts.now }
    requires found { IsPartedFrom parts.now found.now }
    requires kept { first_meaning_fault parts.now.file found.now.contents ≡ None }
    ensures right { OnOk result (IsFalse (fails_at parts.now.file found.now parts.now)) }
    ensures fault { IfErr result (IsExtendedFault words.now) }
{
    spells_one_file();
    strings_hold_one_contents();
    let fails = registers_break_rules(parts, found);
    if fails {
        let word = sections::access_word(&parts.file);
        return Err(ExtendedFault::BsdlExtra {
            place: words.place_of(word as usize),
        });
    }
    Ok(())
}

// The registers of the entries.
fn registers_in(
    alloc: Global,
    parts: &Parted,
    found: &PartedContents,
) -> Result<Row<TestRegister>, OutOfMemory>
    ensures { IfOk result (λ made. made ≡ registers_for parts.now.entries found.now.own) }
{
    let own = found.own.as_slice();
    let entries = parts.entries.as_slice();
    let made = registers_of(alloc, own, entries)?;
    Ok(made)
}

// The device of the file and its contents, which break no rule.
fn meant(
    alloc: Global,
    words: &BsdlWords,
    parts: &Parted,
    found: &PartedContents,
) -> Result<Extended, ExtendedFault>
    requires parted { HasParted words.now.list parts.now }
    requires found { IsPartedFrom parts.now found.now }
    ensures spelled { IfOk result (SpellsExtended words.now.list) }
    ensures fault { IfErr result (IsExtendedFault words.now) }
{
    check_base(alloc, words, parts, found)?;
    check_registers(words, parts, found)?;
    Ok(Extended {
        device: device(alloc, &parts.file, &found.contents)?,
        registers: registers_in(alloc, parts, found)?,
    })
}

// The device of the file.
fn described(alloc: Global, words: &BsdlWords, parts: &Parted) -> Result<Extended, ExtendedFault>
    requires parted { HasParted words.now.list parts.now }
    ensures spelled { IfOk result (SpellsExtended words.now.list) }
    ensures fault { IfErr result (IsExtendedFault words.now) }
{
    let contents = contents_of(alloc, words, parts)?;
    let entries = parts.entries.as_slice();
    let found = part_contents(alloc, entries, contents)?;
    meant(alloc, words, parts, &found)
}

/// The device that the words spell, with the registers of the design's own. It is refused where they spell none, or
/// memory is.
pub fn parse_extended(alloc: Global, words: &BsdlWords) -> Result<Extended, ExtendedFault>
    ensures spelled { IfOk result (SpellsExtended words.now.list) }
    ensures only { IfOk result (λ made. (other : ExtendedOf) → SpellsExtended words.now.list other → other ≡ made) }
    ensures fault { IfErr result (IsExtendedFault words.now) }
{
    spells_one_file();
    strings_hold_one_contents();
    let parts = parted_of(alloc, words)?;
    described(alloc, words, &parts)
}
