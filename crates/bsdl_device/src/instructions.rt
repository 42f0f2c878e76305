// What a device says of its instructions.
// IEEE Std 1149.1-2001: the instructions and the registers that they select; the annex on BSDL for their names.
ghost use Rattle.std.specs.Prelude.{◌≡◌};
ghost use Rattle.bsdl_device.specs.Instructions as profile;

use crate::entries::Register;
use cell_library::Instr;

/// The instructions of the profile, in the order in which one is looked for.
pub const INSTRUCTIONS: [Instr; 8] = [
    Instr::Bypass,
    Instr::Extest,
    Instr::Sample,
    Instr::Preload,
    Instr::Idcode,
    Instr::Highz,
    Instr::Clamp,
    Instr::Usercode,
];

/// Those that each device has, in the order in which a missing one is told.
pub const REQUIRED_INSTRUCTIONS: [Instr; 4] = [
    Instr::Extest,
    Instr::Sample,
    Instr::Preload,
    Instr::Bypass,
];

/// The name of an instruction in a BSDL text.
pub fn instruction_word(instruction: Instr) -> &'static [u8]
    ensures { result.now ≡ profile.instruction_word instruction }
{
    match instruction {
        Instr::Bypass => b"BYPASS",
        Instr::Extest => b"EXTEST",
        Instr::Sample => b"SAMPLE",
        Instr::Preload => b"PRELOAD",
        Instr::Idcode => b"IDCODE",
        Instr::Highz => b"HIGHZ",
        Instr::Clamp => b"CLAMP",
        Instr::Usercode => b"USERCODE",
    }
}

/// Whether both are one instruction.
pub fn is_instruction(first: Instr, second: Instr) -> bool
    ensures { result ≡ profile.is_instruction first second }
{
    matches!(
        (first, second),
        (Instr::Bypass, Instr::Bypass)
            | (Instr::Extest, Instr::Extest)
            | (Instr::Sample, Instr::Sample)
            | (Instr::Preload, Instr::Preload)
            | (Instr::Idcode, Instr::Idcode)
            | (Instr::Highz, Instr::Highz)
            | (Instr::Clamp, Instr::Clamp)
            | (Instr::Usercode, Instr::Usercode)
    )
}

/// The register that an instruction selects.
pub fn selected_register(instruction: Instr) -> Register
    ensures { result ≡ profile.selected_register instruction }
{
    match instruction {
        Instr::Extest | Instr::Sample | Instr::Preload => Register::Boundary,
        Instr::Bypass | Instr::Highz | Instr::Clamp => Register::Bypass,
        Instr::Idcode | Instr::Usercode => Register::DeviceId,
    }
}
