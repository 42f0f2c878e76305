// From the text that is read to the text that is written.
ghost use Rattle.std.specs.Prelude.{IfErr, IfOk};
ghost use Rattle.verilog_texts.specs.TextFaults.{IsTextFault};
ghost use Rattle.bsdl_values.specs.TextFaults.{IsDeviceTextFault};
ghost use Rattle.text_command.specs.Conversions.{IsCanonicalDevice, IsCanonicalModule, IsConverted};
ghost use Rattle.text_command.specs.ConvertTasks.{StandsInText};

use crate::convert::conversion::Conversion;
use bsdl_device::DeviceTextFault;
use bsdl_printing::print_device;
use bsdl_values::read_device;
use command_faults::Fault;
use std::alloc::Global;
use texts::Text;
use verilog_texts::printing::print_module;
use verilog_texts::{TextFault, bytes_spell_one_tree, read_module};

// The canonical text of the module that a text spells.
fn canonical_module(alloc: Global, text: Text) -> Result<Text, TextFault>
    ensures found { IfOk result (IsCanonicalModule text) }
    ensures fault { IfErr result (IsTextFault text) }
{
    // A law that the proof uses.
    bytes_spell_one_tree();
    let tree = read_module(alloc, text)?;
    Ok(print_module(alloc, &tree)?)
}

// The canonical text of the device that a text spells.
fn canonical_device(alloc: Global, text: Text) -> Result<Text, DeviceTextFault>
    ensures found { IfOk result (IsCanonicalDevice text) }
    ensures fault { IfErr result (IsDeviceTextFault text) }
{
    let device = read_device(alloc, text)?;
    Ok(print_device(alloc, &device)?)
}

/// What the conversion makes of a text.
pub fn converted<'a>(alloc: Global, conversion: Conversion, text: Text) -> Result<Text, Fault<'a>>
    ensures found { IfOk result (IsConverted conversion text) }
    ensures fault { IfErr result (StandsInText conversion text) }
{
    match conversion {
        Conversion::Canon => Ok(canonical_module(alloc, text)?),
        Conversion::ShowBsdl => Ok(canonical_device(alloc, text)?),
    }
}
