// Runs of letters and digits: identifiers, patterns and integers, their values, and numbers as they are written; and
// opcodes by instructions' names.
// Contracts cite specs/Runs.antt, specs/Canonical.antt and specs/Checks.antt of bsdl_device.
// IEEE Std 1149.1-2001: the annex on BSDL; VHDL-93, lexical elements.
//
// - `is_identifier`, `is_pattern`, `is_integer`, `decimal`, `binary`, `put_bits`, `put_number`, `has_instruction`,
//   `clash`, `code_is_barred` and their like answer, or write, exactly what the definitions of `bsdl_device` say.
// By the contract of these calls.

pub mod numbers;
pub mod opcodes;
pub mod runs;
pub mod written;
