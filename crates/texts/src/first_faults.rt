// The first fault along a list, the first name that came before, and the place where each key first stands.
// Contracts cite specs/First.antt and specs/Repeated.antt.
// Own: no chapter of a standard speaks of it.
//
// - `first_repeated` answers the first name of a list that came before in it, and none exactly where no name
//   stands twice.
// - `first_places` is a table that gives each key the place where it first stands.
// By the contract of `first_repeated` and `first_places`.

mod places;

ghost use Rattle.std.specs.Prelude.{◌≡◌, ◌++◌, ◌∷◌, [], IfOk, not, if◌then◌else◌};
ghost use Rattle.texts.specs.Repeated.{has_name, repeated, bytes_of, seen, texts};

use crate::OutOfMemory;
use indexmap::IndexSet;
pub use places::first_places;
use std::alloc::Global;

// Notes a name, and says whether it is new.
fn note<'a>(table: &mut IndexSet<&'a [u8]>, name: &'a [u8]) -> Result<bool, OutOfMemory>
    ensures { IfOk result (λ fresh. (fresh ≡ not (has_name (seen table.old) name.now))
        × (seen table.new ≡ (if fresh then seen table.old ++ name.now ∷ [] else seen table.old))) }
{
    Ok(table.insert(name)?)
}

/// The first name that came before in the list; it looks once at each.
pub fn first_repeated<'a>(
    alloc: Global,
    names: &[&'a [u8]],
) -> Result<Option<&'a [u8]>, OutOfMemory>
    ensures { IfOk result (λ found. bytes_of found ≡ repeated (texts names.now)) }
{
    let mut table = IndexSet::new(alloc);
    table.reserve(names.len())?;
    for name in names {
        let name = *name;
        if !note(&mut table, name)? {
            return Ok(Some(name));
        }
    }
    Ok(None)
}
