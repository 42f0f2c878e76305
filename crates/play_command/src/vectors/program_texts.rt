// From the text of a device to the text of its program.
ghost use Rattle.std.specs.Prelude.{◌≡◌, IfErr, IfOk};
ghost use Rattle.bsdl_device.specs.IsDevice.{IsDevice};
ghost use Rattle.scan_vectors.specs.Canonical.{canonical_lines, canonical_text};
ghost use Rattle.scan_vectors.specs.Grammar.{SpellsLines};
ghost use Rattle.scan_programs.specs.Program.{program_of};
ghost use Rattle.play_command.specs.Programs.{IsProgramText};
ghost use Rattle.play_command.specs.VectorsTasks.{StandsInText};

use bsdl_device::Device;
use bsdl_values::read_device;
use command_faults::Fault;
use scan_programs::program;
use scan_vectors::{print_events, texts_of_events_are_spelled_or_at_fault};
use std::alloc::Global;
use texts::{OutOfMemory, Text};

// The canonical text of the program of a device.
fn printed(alloc: Global, device: &Device) -> Result<Text, OutOfMemory>
    requires { IsDevice device.now }
    ensures canonical { IfOk result (λ text. text ≡ canonical_text (program_of device.now)) }
    ensures spells { IfOk result (λ text. SpellsLines text (canonical_lines (program_of device.now))) }
{
    let lines = program(alloc, device)?;
    print_events(alloc, &lines)
}

/// The text of the program of the device that a text spells.
pub fn program_text<'a>(alloc: Global, text: Text) -> Result<Text, Fault<'a>>
    ensures made { IfOk result (IsProgramText text) }
    ensures fault { IfErr result (StandsInText text) }
{
    // A law that the proof uses.
    texts_of_events_are_spelled_or_at_fault();
    let device = read_device(alloc, text)?;
    match printed(alloc, &device) {
        Ok(printed) => Ok(printed),
        Err(OutOfMemory) => Err(Fault::OutOfMemory),
    }
}
