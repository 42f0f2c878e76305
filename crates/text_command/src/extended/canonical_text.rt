ghost use Rattle.std.specs.Prelude.{IfErr, IfOk};
ghost use Rattle.bsdl_values.specs.RegisterTextsTextFaults.{IsExtendedTextFault};
ghost use Rattle.text_command.specs.ExtendedTasks.{IsCanonicalExtended, StandsInText};

use bsdl_printing::registers::print_extended;
use bsdl_values::register_texts::{ExtendedTextFault, read_extended};
use command_faults::Fault;
use std::alloc::Global;
use texts::Text;

// The canonical text of the device that a text spells, with the registers of its own.
fn canonical_extended(alloc: Global, text: Text) -> Result<Text, ExtendedTextFault>
    ensures found { IfOk result (IsCanonicalExtended text) }
    ensures fault { IfErr result (IsExtendedTextFault text) }
{
    let extended = read_extended(alloc, text)?;
    Ok(print_extended(alloc, &extended)?)
}

/// The text that is written for a text that is read.
pub fn shown<'a>(alloc: Global, text: Text) -> Result<Text, Fault<'a>>
    ensures found { IfOk result (IsCanonicalExtended text) }
    ensures fault { IfErr result (StandsInText text) }
{
    Ok(canonical_extended(alloc, text)?)
}
