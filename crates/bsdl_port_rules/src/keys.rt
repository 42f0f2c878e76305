// Lists of keys: whether one comes twice, and which come once.
ghost use Rattle.std.specs.Prelude.{◌≡◌, IfOk, OnOk, count_by, if◌then◌else◌};
ghost use Rattle.indexmap.specs.IndexMap.{get};
ghost use Rattle.bsdl_device.specs.Checks.{any_pair};
ghost use Rattle.bsdl_port_rules.specs.Keys.{is_once, once_more, uses_for};

use indexmap::{IndexMap, IndexSet};
use std::alloc::Global;
use std::hash::Hash;
use texts::OutOfMemory;

/// How often a key comes that comes at all.
#[derive(Clone, Copy, Drop)]
pub enum Uses {
    Once,
    Several,
}

/// Whether a key comes twice. Each key is looked up once, up to the first that came before.
pub fn comes_twice<K: Eq + Hash + Copy + Drop>(
    alloc: Global,
    keys: &[K],
) -> Result<bool, OutOfMemory>
    ensures { IfOk result (λ twice. twice ≡ any_pair K.eq keys.now) }
{
    let mut seen = IndexSet::new(alloc);
    for key in keys {
        if !seen.insert(*key)? {
            return Ok(true);
        }
    }
    Ok(false)
}

fn with_one_more(found: Option<Uses>) -> Uses
    ensures { result ≡ once_more found }
{
    match found {
        None => Uses::Once,
        Some(_) => Uses::Several,
    }
}

// Notes that a key comes.
fn note_use<K: Eq + Hash + Copy + Drop>(
    table: &mut IndexMap<K, Uses>,
    key: K,
) -> Result<(), OutOfMemory>
    ensures { OnOk result ((k : K) → get K.eq table.new k
        ≡ (if K.eq k key then Some (once_more (get K.eq table.old k)) else get K.eq table.old k)) }
{
    let uses = with_one_more(table.get(&key).copied());
    table.insert(key, uses)?;
    Ok(())
}

/// How often each key comes: a table with one entry for each key that comes.
pub fn uses_of<K: Eq + Hash + Copy + Drop>(
    alloc: Global,
    keys: &[K],
) -> Result<IndexMap<K, Uses>, OutOfMemory>
    ensures { IfOk result (λ table. (k : K) → get K.eq table k ≡ uses_for (count_by (K.eq k) keys.now)) }
{
    let mut table = IndexMap::new(alloc);
    for key in keys {
        note_use(&mut table, *key)?;
    }
    Ok(table)
}

/// Whether a key comes once, by what the table of `uses_of` has under it.
pub fn comes_once(found: Option<Uses>) -> bool
    ensures { result ≡ is_once found }
{
    match found {
        Some(Uses::Once) => true,
        Some(Uses::Several) | None => false,
    }
}
