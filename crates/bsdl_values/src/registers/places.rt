// The words at which contents are told to be wrong.
ghost use Rattle.std.specs.Prelude.{◌≡◌, ◌<◌, ◌^◌};
ghost use Rattle.bsdl_checks.specs.Counts.{all_words};
ghost use Rattle.bsdl_values.specs.RegistersPlaces.{contents_word};

use bsdl_checks::{sections, strings_stand_within};
use bsdl_contents::HeldSection;
use bsdl_device::File;

/// The number of the first word of a section's strings.
#[tactic(auto, using(crate::proofs::RegistersContentsWords::contents_words))]
pub fn string_word(file: &File, section: HeldSection) -> u64
    requires { all_words file.now < 2 ^ 64 }
    ensures { result ≡ contents_word file.now section }
{
    strings_stand_within(file);
    match section {
        HeldSection::PinMap => sections::pin_map_word(file) + 5,
        HeldSection::Opcodes => sections::opcode_word(file) + 7,
        HeldSection::Capture => sections::capture_word(file) + 7,
        HeldSection::Idcode => sections::idcode_word(file) + 7,
        HeldSection::Usercode => sections::usercode_word(file) + 7,
        HeldSection::Access => sections::access_word(file) + 7,
        HeldSection::Rows => sections::boundary_word(file) + 7,
    }
}
