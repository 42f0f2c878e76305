ghost use Rattle.std.specs.Prelude.{◌≡◌, IfErr, IfOk};
ghost use Rattle.bsdl_values.specs.TextOutcome.{HasBsdlWords};
ghost use Rattle.bsdl_device.specs.IsExtended.{IsExtended};
ghost use Rattle.bsdl_values.specs.RegisterTextsFaultKinds as kinds;
ghost use Rattle.bsdl_values.specs.RegisterTextsTextOutcome.{IsExtendedReadAs, SpelledExtended};
ghost use Rattle.bsdl_values.specs.RegisterTextsTextFaults.{IsExtendedTextFault, IsWordsFault};

use crate::register_texts::fault::ExtendedTextFault;
use crate::register_texts::laws::spells_one_extended;
use crate::registers::parse_extended;
use bsdl_device::registers::Extended;
use bsdl_device::registers_round_trip::{
    canonical_extended_texts_spell, spelled_extended_keep_the_conditions,
};
use bsdl_lexicon::BsdlWords;
use bsdl_words::BsdlWordFault;
use std::alloc::Global;
use texts::Text;

// A fault of the bytes as one of the text.
fn word_fault(fault: BsdlWordFault) -> ExtendedTextFault
    ensures { result ≡ kinds.word_fault fault }
{
    match fault {
        BsdlWordFault::BsdlWord { place } => ExtendedTextFault::BsdlWord { place },
        BsdlWordFault::OutOfMemory => ExtendedTextFault::OutOfMemory,
    }
}

// The words of a text, which is let go.
fn cut(alloc: Global, text: Text) -> Result<BsdlWords, ExtendedTextFault>
    ensures words { IfOk result (HasBsdlWords text) }
    ensures fault { IfErr result (IsExtendedTextFault text) }
{
    match bsdl_words::cut(alloc, text.as_bytes()) {
        Ok(words) => Ok(words),
        Err(fault) => Err(word_fault(fault)),
    }
}

// The device of words, which are let go.
fn parse(alloc: Global, words: BsdlWords) -> Result<Extended, ExtendedTextFault>
    ensures device { IfOk result (SpelledExtended words) }
    ensures fault { IfErr result (IsWordsFault words) }
{
    Ok(parse_extended(alloc, &words)?)
}

/// The device that a text spells, with the registers of its own. The text is let go before the device is made.
pub fn read_extended(alloc: Global, text: Text) -> Result<Extended, ExtendedTextFault>
    ensures read { IfOk result (IsExtendedReadAs text) }
    ensures keeps { IfOk result IsExtended }
    ensures fault { IfErr result (IsExtendedTextFault text) }
{
    spells_one_extended();
    canonical_extended_texts_spell();
    spelled_extended_keep_the_conditions();
    let words = cut(alloc, text)?;
    let extended = parse(alloc, words)?;
    Ok(extended)
}
