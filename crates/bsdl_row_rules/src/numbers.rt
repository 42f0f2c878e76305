// Sets of numbers.
ghost use Rattle.std.specs.Prelude.{◌≡◌, ℕ, IfOk, nat_eq};
ghost use Rattle.std.specs.List.{list_any};

use indexmap::IndexSet;
use std::alloc::Global;
use texts::OutOfMemory;

/// The numbers of a list, as a set.
pub fn number_set(alloc: Global, numbers: &[u32]) -> Result<IndexSet<u32>, OutOfMemory>
    ensures { IfOk result (λ set. (n : ℕ) → list_any (nat_eq n) set.keys
        ≡ list_any (nat_eq n) numbers.now) }
{
    let mut set = IndexSet::new(alloc);
    for number in numbers {
        set.insert(*number)?;
    }
    Ok(set)
}

/// Whether the number is in the set.
pub fn has_number(set: &IndexSet<u32>, number: u32) -> bool
    ensures { result ≡ list_any (nat_eq number) set.now.keys }
{
    set.contains(&number)
}
