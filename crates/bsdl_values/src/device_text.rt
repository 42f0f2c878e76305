ghost use Rattle.std.specs.Prelude.{◌≡◌, IfErr, IfOk};
ghost use Rattle.bsdl_device.specs.IsDevice.{IsDevice};
ghost use Rattle.bsdl_values.specs.FaultKinds as kinds;
ghost use Rattle.bsdl_values.specs.TextOutcome.{HasBsdlWords, IsDeviceReadAs, SpelledDevice};
ghost use Rattle.bsdl_values.specs.TextFaults.{IsDeviceTextFault, IsWordsFault};

use crate::parse::parse_device;
use bsdl_contents::strings_hold_one_contents;
use bsdl_device::reading::spells_one_file;
use bsdl_device::round_trip::{canonical_reads_back, spelled_devices_keep_the_conditions};
use bsdl_device::{Device, DeviceTextFault};
use bsdl_lexicon::BsdlWords;
use bsdl_words::{BsdlWordFault, texts_are_one_list_of_words};
use std::alloc::Global;
use texts::Text;

// A fault of the bytes as one of the text.
fn word_fault(fault: BsdlWordFault) -> DeviceTextFault
    ensures { result ≡ kinds.word_fault fault }
{
    match fault {
        BsdlWordFault::BsdlWord { place } => DeviceTextFault::BsdlWord { place },
        BsdlWordFault::OutOfMemory => DeviceTextFault::OutOfMemory,
    }
}

// The words of a text, which is let go.
fn cut(alloc: Global, text: Text) -> Result<BsdlWords, DeviceTextFault>
    ensures words { IfOk result (HasBsdlWords text) }
    ensures fault { IfErr result (IsDeviceTextFault text) }
{
    match bsdl_words::cut(alloc, text.as_bytes()) {
        Ok(words) => Ok(words),
        Err(fault) => Err(word_fault(fault)),
    }
}

// The device of words, which are let go.
fn parse(alloc: Global, words: BsdlWords) -> Result<Device, DeviceTextFault>
    ensures device { IfOk result (SpelledDevice words) }
    ensures fault { IfErr result (IsWordsFault words) }
{
    Ok(parse_device(alloc, &words)?)
}

/// The device that a text spells. The text is let go before the device is made.
pub fn read_device(alloc: Global, text: Text) -> Result<Device, DeviceTextFault>
    ensures read { IfOk result (IsDeviceReadAs text) }
    ensures keeps { IfOk result IsDevice }
    ensures fault { IfErr result (IsDeviceTextFault text) }
{
    spells_one_file();
    strings_hold_one_contents();
    texts_are_one_list_of_words();
    canonical_reads_back();
    spelled_devices_keep_the_conditions();
    let words = cut(alloc, text)?;
    let device = parse(alloc, words)?;
    Ok(device)
}
