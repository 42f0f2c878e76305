// Opcodes that can't be an instruction's.
ghost use Rattle.std.specs.Prelude.{◌≡◌, ◌++◌, ◌∷◌, [], true, false, not, IfOk};
ghost use Rattle.std.specs.List.{list_any};
ghost use Rattle.bsdl_device.specs.Instructions as profile;
ghost use Rattle.status_fitting.specs.Keys.{patterns_in};
ghost use Rattle.status_fitting.specs.Opcodes as opcodes;
ghost use Rattle.status_fitting.specs.Steps.{fault_behind, opcode_fault};

use crate::keys::PatternKey;
use crate::register_texts::{StatusFault, StatusRow};
use bsdl_device::runs::opcodes::has_other_length;
use cell_library::{Bits, Opcode};
use indexmap::IndexSet;
use plan_texts::Plan;
use std::alloc::Global;
use texts::{OutOfMemory, Text};

fn same_bits(one: Bits, other: Bits) -> bool
    ensures { result ≡ profile.same_bits one other }
{
    one.len == other.len && one.value == other.value
}

// One of the opcodes is this.
fn is_among(opcodes: &[Opcode], bits: Bits) -> bool
    ensures { result ≡ list_any (λ o. profile.same_bits bits o.bits) opcodes.now }
{
    opcodes.iter().any(|opcode| same_bits(bits, opcode.bits))
}

// Adds an opcode to those before it, and says whether it is new.
fn note(before: &mut IndexSet<PatternKey>, bits: Bits) -> Result<bool, OutOfMemory>
    ensures fresh { IfOk result (λ fresh. fresh
        ≡ not (list_any (profile.same_bits bits) (patterns_in before.old.keys))) }
    ensures added { IfOk result (λ fresh. fresh ≡ true
        → patterns_in before.new.keys ≡ patterns_in before.old.keys ++ bits ∷ []) }
{
    Ok(before.insert(PatternKey {
        len: bits.len,
        value: bits.value,
    })?)
}

// Adds an opcode to those before it, and says whether it can't stand behind them.
fn is_taken(base: &Plan, before: &mut IndexSet<PatternKey>, bits: Bits) -> Result<bool, OutOfMemory>
    ensures taken { IfOk result (λ taken. taken
        ≡ opcodes.is_taken_behind base.now (patterns_in before.old.keys) bits) }
    ensures added { IfOk result (λ taken. taken ≡ false
        → patterns_in before.new.keys ≡ patterns_in before.old.keys ++ bits ∷ []) }
{
    let fresh = note(before, bits)?;
    Ok(has_other_length(base.length, bits) || is_among(base.opcodes.as_slice(), bits) || !fresh)
}

fn refusal(alloc: Global, row: &StatusRow) -> Result<StatusFault, OutOfMemory>
    ensures { IfOk result (λ fault. fault ≡ opcode_fault row.now) }
{
    Ok(StatusFault::StatusOpcode {
        word: Text::from_bytes(alloc, row.instr.as_bytes())?,
    })
}

/// The first opcode that can't be its instruction's.
pub fn find_taken(
    alloc: Global,
    base: &Plan,
    rows: &[StatusRow],
) -> Result<Option<StatusFault>, OutOfMemory>
    ensures { IfOk result (λ found. found ≡ fault_behind (opcodes.is_taken base.now) opcode_fault []
        rows.now) }
{
    let mut before = IndexSet::new(alloc);
    for row in rows {
        let taken = is_taken(base, &mut before, row.bits)?;
        if taken {
            return Ok(Some(refusal(alloc, row)?));
        }
    }
    Ok(None)
}
