// Names that can't be a register's or an instruction's.
ghost use Rattle.std.specs.Prelude.{◌≡◌, ◌++◌, ◌∷◌, [], true, false, not, ◌||◌, IfOk, OnOk, codes, flat_map};
ghost use Rattle.std.specs.List.{list_any};
ghost use Rattle.bsdl_lexicon.specs.Names.{is_same_name};
ghost use Rattle.status_fitting.specs.Keys.{given_in, given_of};
ghost use Rattle.status_fitting.specs.Names as names;
ghost use Rattle.status_fitting.specs.Steps.{fault_behind, name_fault};

use crate::keys::GivenKey;
use crate::register_texts::{StatusFault, StatusPlan, StatusRow};
use bsdl_checks::registers::{names_register, names_some_instruction};
use bsdl_device::runs::runs::is_identifier;
use bsdl_lexicon::{NameKey, is_reserved, same_name};
use indexmap::IndexSet;
use std::alloc::Global;
use texts::{OutOfMemory, Text};

// The name is that of an instruction of the standard that the profile leaves out.
fn names_other(name: &[u8]) -> bool
    ensures { result ≡ (is_same_name name.now (codes "INTEST")
        || is_same_name name.now (codes "RUNBIST")) }
{
    same_name(name, b"INTEST") || same_name(name, b"RUNBIST")
}

impl<'a> GivenKey<'a> {
    fn name(self) -> &'a [u8]
        ensures { result.now ≡ names.name_of (given_of self.entry) }
    {
        match self {
            GivenKey::Register(name) => name.0,
            GivenKey::Instruction(name) => name.0,
        }
    }

    fn is_standard(self) -> bool
        ensures { result ≡ names.is_standard (given_of self.entry) }
    {
        match self {
            GivenKey::Register(name) => names_register(name.0),
            GivenKey::Instruction(name) => names_some_instruction(name.0) || names_other(name.0),
        }
    }
}

// Adds a name to those before it, and says whether it is new.
fn note<'a>(before: &mut IndexSet<GivenKey<'a>>, given: GivenKey<'a>) -> Result<bool, OutOfMemory>
    ensures fresh { IfOk result (λ fresh. fresh
        ≡ not (list_any (names.same_given (given_of given.entry)) (given_in before.old.keys))) }
    ensures added { IfOk result (λ fresh. fresh ≡ true
        → given_in before.new.keys ≡ given_in before.old.keys ++ given_of given.entry ∷ []) }
{
    Ok(before.insert(given)?)
}

// Adds a name to those before it, and says whether it can't stand behind them.
fn is_barred<'a>(
    before: &mut IndexSet<GivenKey<'a>>,
    given: GivenKey<'a>,
) -> Result<bool, OutOfMemory>
    ensures barred { IfOk result (λ barred. barred
        ≡ names.is_barred (given_in before.old.keys) (given_of given.entry)) }
    ensures added { IfOk result (λ barred. barred ≡ false
        → given_in before.new.keys ≡ given_in before.old.keys ++ given_of given.entry ∷ []) }
{
    let fresh = note(before, given)?;
    let name = given.name();
    Ok(!is_identifier(name) || is_reserved(name) || given.is_standard() || !fresh)
}

// The first of the names that can't stand behind those before it.
fn find_barred<'a>(alloc: Global, keys: &[GivenKey<'a>]) -> Result<Option<StatusFault>, OutOfMemory>
    ensures { IfOk result (λ found. found ≡ fault_behind names.is_barred name_fault []
        (given_in keys.now)) }
{
    let mut before = IndexSet::new(alloc);
    for given in keys {
        if is_barred(&mut before, *given)? {
            return Ok(Some(StatusFault::StatusName {
                word: Text::from_bytes(alloc, given.name())?,
            }));
        }
    }
    Ok(None)
}

// Adds the names that a line gives.
fn push_given<'a>(keys: &mut Vec<GivenKey<'a>>, row: &'a StatusRow) -> Result<(), OutOfMemory>
    ensures { OnOk result (given_in keys.new.items
        ≡ given_in keys.old.items ++ names.given_by row.now) }
{
    keys.push(GivenKey::Register(NameKey(row.name.as_bytes())))?;
    keys.push(GivenKey::Instruction(NameKey(row.instr.as_bytes())))?;
    Ok(())
}

// The names that lines give, in their order.
fn all_given<'a>(alloc: Global, rows: &'a [StatusRow]) -> Result<Vec<GivenKey<'a>>, OutOfMemory>
    ensures { IfOk result (λ keys. given_in keys.items ≡ flat_map names.given_by rows.now) }
{
    let mut keys = Vec::new(alloc);
    for row in rows {
        push_given(&mut keys, row)?;
    }
    Ok(keys)
}

/// The first name that can't be a register's or an instruction's.
pub fn find_name_fault(alloc: Global, plan: &StatusPlan) -> Result<Option<StatusFault>, OutOfMemory>
    ensures { IfOk result (λ found. found ≡ fault_behind names.is_barred name_fault []
        (names.all_given plan.now)) }
{
    let keys = all_given(alloc, plan.registers.as_slice())?;
    find_barred(alloc, &keys)
}
