// The rules on the design's own registers. What is looked at pair by pair is short where what was looked at
// before is right.
ghost use Rattle.std.specs.Prelude.{◌≡◌};
ghost use Rattle.std.specs.List.{list_any};
ghost use Rattle.bsdl_device.specs.Checks as checks;
ghost use Rattle.bsdl_device.specs.Rules as rule;
ghost use Rattle.bsdl_checks.specs.Pairs as pair;

use crate::registers::registers::count_of;
use bsdl_device::registers::RegisterEntry;
use bsdl_device::runs::opcodes::{has_other_length, names_instruction};
use bsdl_device::{INSTRUCTIONS, OpcodeEntry};
use bsdl_lexicon::same_name;

/// Whether a name is that of one of the profile's registers.
pub fn names_register(name: &[u8]) -> bool
    ensures { result ≡ rule.names_register name.now }
{
    same_name(name, b"BOUNDARY") || same_name(name, b"BYPASS") || same_name(name, b"DEVICE_ID")
}

/// Whether a name is that of one of the profile's instructions.
pub fn names_some_instruction(name: &[u8]) -> bool
    ensures { result ≡ rule.names_some_instruction name.now }
{
    INSTRUCTIONS
        .iter()
        .any(|instruction| names_instruction(*instruction, name))
}

fn entry_fails(own: &[OpcodeEntry], entry: &RegisterEntry) -> bool
    ensures { result ≡ rule.entry_fails own.now entry.now }
{
    names_register(entry.name.as_bytes())
        || names_some_instruction(entry.instruction.as_bytes())
        || count_of(own, entry) != 1
        || entry.length == 0
        || 256 < entry.length
}

fn some_entry_fails(own: &[OpcodeEntry], entries: &[RegisterEntry]) -> bool
    ensures { result ≡ list_any (rule.entry_fails own.now) entries.now }
{
    entries.iter().any(|entry| entry_fails(own, entry))
}

// The two entries have one name.
fn same_names(first: &RegisterEntry, second: &RegisterEntry) -> bool
    ensures { result ≡ pair.same_names first.now second.now }
{
    same_name(first.name.as_bytes(), second.name.as_bytes())
}

fn shares_name(first: &RegisterEntry, others: &[RegisterEntry]) -> bool
    ensures { result ≡ list_any (pair.same_names first.now) others.now }
{
    others.iter().any(|second| same_names(first, second))
}

fn has_name_twice(entries: &[RegisterEntry]) -> bool
    ensures { result ≡ checks.any_pair pair.same_names entries.now }
{
    for i in 0..entries.len() {
        if shares_name(&entries[i], &entries[i + 1..]) {
            return true;
        }
    }
    false
}

// The two entries have one instruction.
fn same_instructions(first: &RegisterEntry, second: &RegisterEntry) -> bool
    ensures { result ≡ pair.same_instructions first.now second.now }
{
    same_name(first.instruction.as_bytes(), second.instruction.as_bytes())
}

fn shares_instruction(first: &RegisterEntry, others: &[RegisterEntry]) -> bool
    ensures { result ≡ list_any (pair.same_instructions first.now) others.now }
{
    others.iter().any(|second| same_instructions(first, second))
}

fn has_instruction_twice(entries: &[RegisterEntry]) -> bool
    ensures { result ≡ checks.any_pair pair.same_instructions entries.now }
{
    for i in 0..entries.len() {
        if shares_instruction(&entries[i], &entries[i + 1..]) {
            return true;
        }
    }
    false
}

fn has_misfit(wanted: u32, own: &[OpcodeEntry]) -> bool
    ensures { result ≡ list_any (λ o. checks.has_other_length wanted o.bits) own.now }
{
    own.iter()
        .any(|opcode| has_other_length(wanted, opcode.bits))
}

// The opcode of one of the profile's instructions has the pattern.
fn is_in_base(base: &[OpcodeEntry], opcode: &OpcodeEntry) -> bool
    ensures { result ≡ list_any (pair.same_patterns opcode.now) base.now }
{
    base.iter().any(|other| same_patterns(opcode, other))
}

fn has_base_pattern(base: &[OpcodeEntry], own: &[OpcodeEntry]) -> bool
    ensures { result ≡ list_any (λ o. list_any (pair.same_patterns o) base.now) own.now }
{
    own.iter().any(|opcode| is_in_base(base, opcode))
}

// The two opcodes have one pattern.
fn same_patterns(first: &OpcodeEntry, second: &OpcodeEntry) -> bool
    ensures { result ≡ pair.same_patterns first.now second.now }
{
    first.bits.len == second.bits.len && first.bits.value == second.bits.value
}

fn shares_pattern(first: &OpcodeEntry, others: &[OpcodeEntry]) -> bool
    ensures { result ≡ list_any (pair.same_patterns first.now) others.now }
{
    others.iter().any(|second| same_patterns(first, second))
}

fn has_pattern_twice(own: &[OpcodeEntry]) -> bool
    ensures { result ≡ checks.any_pair pair.same_patterns own.now }
{
    for i in 0..own.len() {
        if shares_pattern(&own[i], &own[i + 1..]) {
            return true;
        }
    }
    false
}

fn opcodes_fail(wanted: u32, base: &[OpcodeEntry], own: &[OpcodeEntry]) -> bool
    ensures { result ≡ rule.opcodes_fail wanted base.now own.now }
{
    has_misfit(wanted, own) || has_base_pattern(base, own) || has_pattern_twice(own)
}

fn entries_fail(entries: &[RegisterEntry]) -> bool
    ensures { result ≡ rule.entries_fail entries.now }
{
    16 < entries.len() || has_name_twice(entries) || has_instruction_twice(entries)
}

/// A rule on the design's own registers is broken.
pub fn registers_fail(
    wanted: u32,
    base: &[OpcodeEntry],
    own: &[OpcodeEntry],
    entries: &[RegisterEntry],
) -> bool
    ensures { result ≡ rule.registers_fail wanted base.now own.now entries.now }
{
    entries_fail(entries) || some_entry_fails(own, entries) || opcodes_fail(wanted, base, own)
}
