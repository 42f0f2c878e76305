// Counts of a hierarchy, level by level: as many rounds as it may have levels, each of which looks once
// at each instance.
ghost use Rattle.std.specs.Prelude.{◌≡◌, ◌<◌, ℕ, map, length, Some, None, slice_get, IfOk};
ghost use Rattle.std.specs.Option.{option_map};
ghost use Rattle.hier_model.specs.Entries.{level_limit};
ghost use Rattle.hier_counts.specs.Levels as levels;

use crate::sizes::{Size, sizes_of};
use crate::widths::{CELL_LIMIT, NET_LIMIT, capped_sum};
use hier_model::walk::ModuleTable;
use std::alloc::Global;
use texts::OutOfMemory;

/// The most levels that a hierarchy may have.
pub const LEVEL_LIMIT: u64 = 64;

/// What a module comes to through some levels: whether they suffice, and how many cells and nets there are, each up to
/// its limit and one.
#[derive(Clone, Copy, Drop)]
pub struct Counts {
    pub fits: bool,
    pub cells: u64,
    pub nets: u64,
}

const NO_COUNTS: Counts = Counts {
    fits: false,
    cells: 0,
    nets: 0,
};

fn counts_in(counts: &[Counts], place: usize) -> Counts
    ensures { result ≡ levels.counts_in counts.now place }
{
    match counts.get(place) {
        Some(counts) => *counts,
        None => NO_COUNTS,
    }
}

// What a module comes to through one level more.
fn next_counts(size: &Size, below: &[Counts]) -> Counts
    ensures { result ≡ levels.next_counts size.now below.now }
{
    let mut fits = true;
    let mut cells = capped_sum(size.items as u64, 0, CELL_LIMIT);
    let mut nets = capped_sum(size.bits, 0, NET_LIMIT);
    for held in size.held.as_slice() {
        let counts = counts_in(below, held.place);
        fits = fits && counts.fits;
        let joined = capped_sum(held.joined, counts.cells, CELL_LIMIT);
        cells = capped_sum(cells, joined, CELL_LIMIT);
        nets = capped_sum(nets, counts.nets, NET_LIMIT);
    }
    Counts { fits, cells, nets }
}

fn next_level(alloc: Global, sizes: &[Size], below: &[Counts]) -> Result<Vec<Counts>, OutOfMemory>
    ensures { IfOk result (λ counts. counts.items ≡ map (λ size. levels.next_counts size below.now) sizes.now) }
{
    let mut counts = Vec::new(alloc);
    for size in sizes {
        counts.push(next_counts(size, below))?;
    }
    Ok(counts)
}

/// What the module at a place comes to through as many levels as there may be.
pub fn counts_of(alloc: Global, table: &ModuleTable, place: usize) -> Result<Counts, OutOfMemory>
    requires { place < length table.now }
    ensures { IfOk result (λ counts. Some counts ≡ option_map (levels.counts_at level_limit table.now) (slice_get table.now place)) }
{
    let sizes = sizes_of(alloc, table)?;
    let mut counts = vec![in alloc; NO_COUNTS; table.as_slice().len()]?;
    for _level in 0..LEVEL_LIMIT {
        counts = next_level(alloc, &sizes, &counts)?;
    }
    Ok(counts[place])
}
