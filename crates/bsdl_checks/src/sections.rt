// The number of the first word of each section at which a rule is told.
ghost use Rattle.std.specs.Prelude.{◌≡◌, ◌<◌, ◌+◌, ◌-◌, ◌^◌, length};
ghost use Rattle.bsdl_device.specs.Shape.{code_words, declaration_words};
ghost use Rattle.bsdl_checks.specs.Counts as count;

use bsdl_device::{File, PortDeclaration, StringAttribute};
use texts::Text;

// Parts of one word, with a mark between them.
fn strings_count(strings: &[Text]) -> u64
    requires { count.strings_count strings.now < 2 ^ 64 }
    ensures { result ≡ count.strings_count strings.now }
{
    let count = strings.len() as u64;
    if count == 0 { 0 } else { count + (count - 1) }
}

fn code_count(code: &Option<StringAttribute>) -> u64
    requires { count.code_count code.now < 2 ^ 64 }
    ensures { result ≡ count.code_count code.now }
{
    match code {
        None => 0,
        Some(attribute) => 8 + strings_count(attribute.strings.as_slice()),
    }
}

#[tactic(auto, using(crate::proofs::Words::declaration_words_count))]
fn declaration_count(declaration: &PortDeclaration) -> u64
    requires { length (declaration_words declaration.now) < 2 ^ 64 }
    ensures { result ≡ length (declaration_words declaration.now) }
{
    let names = strings_count(declaration.names.as_slice());
    match declaration.range {
        None => names + 3,
        Some(_) => names + 8,
    }
}

// Declarations, with a mark before each.
#[tactic(auto, using(crate::proofs::Words::one_declaration_more))]
fn declarations_count(declarations: &[PortDeclaration]) -> u64
    requires { length (count.after_semicolons declarations.now) < 2 ^ 64 }
    ensures { result ≡ length (count.after_semicolons declarations.now) }
{
    let mut total = 0;
    for declaration in declarations {
        total += 1 + declaration_count(declaration);
    }
    total
}

/// Of the ports, which are always the third.
#[tactic(auto, unfolding(crate::specs::Counts::first_word))]
pub fn ports_word(file: &File) -> u64
    ensures { result ≡ count.first_word file.now 3 }
{
    12
}

/// Of the pin map.
#[tactic(auto, using(crate::proofs::Words::section_words))]
pub fn pin_map_word(file: &File) -> u64
    requires { count.all_words file.now < 2 ^ 64 }
    ensures { result ≡ count.first_word file.now 7 }
{
    let declarations = declarations_count(file.declarations.as_slice());
    if declarations == 0 {
        39
    } else {
        38 + declarations
    }
}

/// Of the test access port.
#[tactic(auto, using(crate::proofs::Words::section_words))]
pub fn tap_word(file: &File) -> u64
    requires { count.all_words file.now < 2 ^ 64 }
    ensures { result ≡ count.first_word file.now 8 }
{
    pin_map_word(file) + 6 + strings_count(file.pin_map.as_slice())
}

/// Of the instruction register's length.
#[tactic(auto, using(crate::proofs::Words::section_words))]
pub fn length_word(file: &File) -> u64
    requires { count.all_words file.now < 2 ^ 64 }
    ensures { result ≡ count.first_word file.now 10 }
{
    tap_word(file) + 49
}

/// Of the opcodes.
#[tactic(auto, using(crate::proofs::Words::section_words))]
pub fn opcode_word(file: &File) -> u64
    requires { count.all_words file.now < 2 ^ 64 }
    ensures { result ≡ count.first_word file.now 11 }
{
    length_word(file) + 9
}

/// Of the captured bits.
#[tactic(auto, using(crate::proofs::Words::section_words))]
pub fn capture_word(file: &File) -> u64
    requires { count.all_words file.now < 2 ^ 64 }
    ensures { result ≡ count.first_word file.now 12 }
{
    opcode_word(file) + 8 + strings_count(file.opcodes.strings.as_slice())
}

/// Of the identification code; where the file has none, that of the usercode or of the register access.
#[tactic(auto, using(crate::proofs::Words::section_words))]
pub fn idcode_word(file: &File) -> u64
    requires { count.all_words file.now < 2 ^ 64 }
    ensures { result ≡ count.first_word file.now 13 }
{
    capture_word(file) + 8 + strings_count(file.capture.strings.as_slice())
}

/// Of the usercode, behind the code; where the file has none, that of the register access.
#[tactic(auto, using(crate::proofs::Words::section_words))]
pub fn usercode_word(file: &File) -> u64
    requires { count.all_words file.now < 2 ^ 64 }
    ensures { result ≡ count.first_word file.now 13 + length (code_words file.now) }
{
    idcode_word(file) + code_count(&file.idcode)
}

/// Of the register access.
#[tactic(auto, using(crate::proofs::Words::section_words))]
pub fn access_word(file: &File) -> u64
    requires { count.all_words file.now < 2 ^ 64 }
    ensures { result ≡ count.first_word file.now 14 }
{
    usercode_word(file) + code_count(&file.usercode)
}

/// Of the boundary register's length.
#[tactic(auto, using(crate::proofs::Words::section_words))]
pub fn boundary_length_word(file: &File) -> u64
    requires { count.all_words file.now < 2 ^ 64 }
    ensures { result ≡ count.first_word file.now 15 }
{
    access_word(file) + 8 + strings_count(file.access.strings.as_slice())
}

/// Of the boundary register's rows.
#[tactic(auto, using(crate::proofs::Words::section_words))]
pub fn boundary_word(file: &File) -> u64
    requires { count.all_words file.now < 2 ^ 64 }
    ensures { result ≡ count.first_word file.now 16 }
{
    boundary_length_word(file) + 9
}
