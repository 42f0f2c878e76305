ghost use Rattle.std.specs.Prelude.{◌≤◌, ◌+◌, length};
ghost use Rattle.bsdl_device.specs.Shape.{code_words};
ghost use Rattle.bsdl_checks.specs.Counts.{first_word, all_words};

use bsdl_device::File;

/// The first string of each section that holds strings stands within the file.
#[tactic(auto, using(crate::proofs::Words::string_words))]
pub fn strings_stand_within(file: &File)
    ensures pin_map { first_word file.now 7 + 5 ≤ all_words file.now }
    ensures opcodes { first_word file.now 11 + 7 ≤ all_words file.now }
    ensures capture { first_word file.now 12 + 7 ≤ all_words file.now }
    ensures idcode { first_word file.now 13 + 7 ≤ all_words file.now }
    ensures usercode { first_word file.now 13 + length (code_words file.now) + 7 ≤ all_words file.now }
    ensures access { first_word file.now 14 + 7 ≤ all_words file.now }
    ensures rows { first_word file.now 16 + 7 ≤ all_words file.now }
{}
