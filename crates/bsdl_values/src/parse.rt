ghost use Rattle.std.specs.Prelude.{◌≡◌, ◌<◌, ◌^◌, IfErr, IfOk, None, OnOk};
ghost use Rattle.bsdl_checks.specs.Counts.{all_words};
ghost use Rattle.bsdl_lexicon.specs.Words.{plain};
ghost use Rattle.bsdl_device.specs.declared.values.Device.{Device as DeviceOf};
ghost use Rattle.bsdl_device.specs.Meanings.{first_meaning_fault};
ghost use Rattle.bsdl_device.specs.Spelled.{HasContents, SpellsDevice, SpellsFile};
ghost use Rattle.bsdl_values.specs.DeviceFaults.{IsDeviceFault};
ghost use Rattle.bsdl_values.specs.FaultKinds as kinds;

use crate::places::string_word;
use bsdl_checks::{device, first_fault};
use bsdl_contents::{ContentsFault, read_contents, strings_hold_one_contents};
use bsdl_device::reading::spells_one_file;
use bsdl_device::{Contents, Device, DeviceFault, File};
use bsdl_files::{FileFault, read_file};
use bsdl_lexicon::BsdlWords;
use std::alloc::Global;

// A fault of the file as one of the device.
fn file_fault(fault: FileFault) -> DeviceFault
    ensures { result ≡ kinds.file_fault fault }
{
    match fault {
        FileFault::BsdlSyntax { place, word } => DeviceFault::BsdlSyntax { place, word },
        FileFault::OutOfMemory => DeviceFault::OutOfMemory,
    }
}

// The file of the words. It has as many words as they are, which a slice holds.
fn file_of(alloc: Global, words: &BsdlWords) -> Result<File, DeviceFault>
    ensures spelled { IfOk result (SpellsFile (plain words.now.list)) }
    ensures few { IfOk result (λ f. all_words f < 2 ^ 64) }
    ensures fault { IfErr result (IsDeviceFault words.now) }
{
    let count = words.len();
    prove!(count <= usize::MAX);
    match read_file(alloc, words) {
        Ok(file) => Ok(file),
        Err(fault) => Err(file_fault(fault)),
    }
}

// What the file's strings hold.
fn contents_of(alloc: Global, words: &BsdlWords, file: &File) -> Result<Contents, DeviceFault>
    requires spells { SpellsFile (plain words.now.list) file.now }
    requires few { all_words file.now < 2 ^ 64 }
    ensures held { IfOk result (HasContents file.now) }
    ensures fault { IfErr result (IsDeviceFault words.now) }
{
    spells_one_file();
    strings_hold_one_contents();
    match read_contents(alloc, file) {
        Ok(contents) => Ok(contents),
        Err(ContentsFault::Section(section)) => {
            let word = string_word(file, section);
            let place = words.place_of(word as usize);
            Err(DeviceFault::BsdlSyntax { place, word })
        }
        Err(ContentsFault::OutOfMemory) => Err(DeviceFault::OutOfMemory),
    }
}

// The file breaks no rule.
fn check_meaning(
    alloc: Global,
    words: &BsdlWords,
    file: &File,
    contents: &Contents,
) -> Result<(), DeviceFault>
    requires spells { SpellsFile (plain words.now.list) file.now }
    requires few { all_words file.now < 2 ^ 64 }
    requires holds { HasContents file.now contents.now }
    ensures kept { OnOk result (first_meaning_fault file.now contents.now ≡ None) }
    ensures fault { IfErr result (IsDeviceFault words.now) }
{
    spells_one_file();
    strings_hold_one_contents();
    match first_fault(alloc, file, contents)? {
        None => Ok(()),
        Some(rule) => Err(DeviceFault::BsdlMeaning {
            kind: rule.kind,
            place: words.place_of(rule.word as usize),
        }),
    }
}

// The device of the file and its contents, which break no rule.
fn meant(
    alloc: Global,
    words: &BsdlWords,
    file: &File,
    contents: &Contents,
) -> Result<Device, DeviceFault>
    requires spells { SpellsFile (plain words.now.list) file.now }
    requires few { all_words file.now < 2 ^ 64 }
    requires holds { HasContents file.now contents.now }
    ensures spelled { IfOk result (SpellsDevice words.now.list) }
    ensures fault { IfErr result (IsDeviceFault words.now) }
{
    check_meaning(alloc, words, file, contents)?;
    Ok(device(alloc, file, contents)?)
}

// The device of the file.
fn described(alloc: Global, words: &BsdlWords, file: &File) -> Result<Device, DeviceFault>
    requires spells { SpellsFile (plain words.now.list) file.now }
    requires few { all_words file.now < 2 ^ 64 }
    ensures spelled { IfOk result (SpellsDevice words.now.list) }
    ensures fault { IfErr result (IsDeviceFault words.now) }
{
    let contents = contents_of(alloc, words, file)?;
    meant(alloc, words, file, &contents)
}

/// The device that the words spell. It is refused where they spell none, or memory is.
pub fn parse_device(alloc: Global, words: &BsdlWords) -> Result<Device, DeviceFault>
    ensures spelled { IfOk result (λ made. SpellsDevice words.now.list made) }
    ensures only { IfOk result (λ made. (other : DeviceOf) → SpellsDevice words.now.list other
        → other ≡ made) }
    ensures fault { IfErr result (IsDeviceFault words.now) }
{
    spells_one_file();
    strings_hold_one_contents();
    let file = file_of(alloc, words)?;
    described(alloc, words, &file)
}
