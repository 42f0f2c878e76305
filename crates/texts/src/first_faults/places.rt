// The place where each key of a list first stands.
ghost use Rattle.std.specs.Prelude.{◌≡◌, IfOk, position};
ghost use Rattle.indexmap.specs.IndexMap.{get};

use crate::OutOfMemory;
use indexmap::IndexMap;
use std::alloc::Global;
use std::hash::Hash;

/// The place where each key first stands.
pub fn first_places<K: Eq + Hash + Copy + Drop>(
    alloc: Global,
    keys: &[K],
) -> Result<IndexMap<K, usize>, OutOfMemory>
    ensures { IfOk result (λ table. (k : K) → get K.eq table k ≡ position (K.eq k) keys.now) }
{
    let mut places = IndexMap::new(alloc);
    for place in (0..keys.len()).rev() {
        places.insert(keys[place], place)?;
    }
    Ok(places)
}
