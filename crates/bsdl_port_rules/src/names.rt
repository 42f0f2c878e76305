// Lists of names: whether one comes twice.
ghost use Rattle.std.specs.Prelude.{◌≡◌, ◌++◌, IfOk, OnOk};
ghost use Rattle.bsdl_device.specs.Checks as rule;
ghost use Rattle.bsdl_lexicon.specs.NameKeys.{names_in};

use crate::keys::comes_twice;
use bsdl_lexicon::NameKey;
use std::alloc::Global;
use texts::{OutOfMemory, Text};

/// Whether a name comes twice.
#[tactic(auto, using(crate::proofs::Repeats::repeated_by_keys))]
pub fn is_repeated(alloc: Global, names: &[NameKey]) -> Result<bool, OutOfMemory>
    ensures { IfOk result (λ repeated. repeated ≡ rule.is_repeated (names_in names.now)) }
{
    comes_twice(alloc, names)
}

/// Adds names at the end.
pub fn extend_keys<'a>(keys: &mut Vec<NameKey<'a>>, names: &'a [Text]) -> Result<(), OutOfMemory>
    ensures { OnOk result (names_in keys.new.items ≡ names_in keys.old.items ++ names.now) }
{
    for name in names {
        keys.push(NameKey(name.as_bytes()))?;
    }
    Ok(())
}
