ghost use Rattle.std.specs.Prelude.{◌≡◌, ℕ, List, [], ◌∷◌, ◌++◌, Some, position, OnErr, OnOk};
ghost use Rattle.std.specs.Option.{option_copied};
ghost use Rattle.std.specs.Str.{bytes_eq};
ghost use Rattle.edge_io.specs.Entries.{value_of};
ghost use Rattle.edge_io.specs.Shelf.{ChangesOne};

use std::alloc::Global;
use texts::{OutOfMemory, Text};

/// A name and what it stands for.
#[derive(Drop)]
pub struct Entry<T> {
    pub name: Text,
    pub value: T,
}

/// Where the first entry of this name stands.
pub fn place_of<T>(entries: &[Entry<T>], name: &[u8]) -> Option<usize>
    ensures { result ≡ position (λ e. bytes_eq e.name name.now) entries.now }
{
    entries
        .iter()
        .position(|entry| entry.name.as_bytes() == name)
}

/// What this name stands for.
pub fn value_in<'a, T>(entries: &'a [Entry<T>], name: &[u8]) -> Option<&'a T>
    ensures { option_copied result ≡ value_of entries.now name.now }
{
    entries
        .iter()
        .find(|entry| entry.name.as_bytes() == name)
        .map(|entry| &entry.value)
}

/// Gives a name this value, in place of what it stood for.
pub fn set_value<T: Drop>(
    alloc: Global,
    entries: &mut Vec<Entry<T>>,
    name: &[u8],
    value: T,
) -> Result<(), OutOfMemory>
    ensures ok { OnOk result (ChangesOne (value_of entries.old.items)
        (value_of entries.new.items) name.now
        (λ before after. after ≡ Some value)) }
    ensures err { OnErr result (entries.new.items ≡ entries.old.items) }
{
    if let Some(place) = place_of(entries, name) {
        entries[place].value = value;
        return Ok(());
    }
    let name = Text::from_bytes(alloc, name)?;
    entries.push(Entry { name, value })?;
    Ok(())
}
