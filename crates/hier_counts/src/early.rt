// The first fault of names, of rings and of counts, before anything is built.
ghost use Rattle.std.specs.Prelude.{◌≡◌, ◌<◌, ◌^◌, length, Some, slice_get, IfOk};
ghost use Rattle.std.specs.Option.{option_map};
ghost use Rattle.hier_counts.specs.Early as early;
ghost use Rattle.hier_counts.specs.Once.{AreOnce};

use crate::cell_names::CellNames;
use crate::children::module_graph;
use crate::levels::{Counts, LEVEL_LIMIT, counts_of};
use crate::missing::find_missing;
use crate::once::find_twice;
use crate::reach::reached_from;
use crate::recursion::find_recursive;
use crate::widths::{CELL_LIMIT, NET_LIMIT};
use hier_model::walk::ModuleTable;
use hier_model::{HierFault, HierWhat};
use std::alloc::Global;
use texts::{OutOfMemory, Text};

fn too_many(what: HierWhat, limit: u64) -> HierFault
    requires { limit < 2 ^ 32 }
    ensures { result ≡ early.too_many what limit }
{
    HierFault::TooMany {
        what,
        count: limit + 1,
        limit,
    }
}

fn find_too_many(counts: Counts) -> Option<HierFault>
    ensures { result ≡ early.count_fault counts }
{
    if !counts.fits {
        return Some(too_many(HierWhat::Depth, LEVEL_LIMIT));
    }
    if counts.cells > CELL_LIMIT {
        return Some(too_many(HierWhat::Cells, CELL_LIMIT));
    }
    if counts.nets > NET_LIMIT {
        return Some(too_many(HierWhat::Nets, NET_LIMIT));
    }
    None
}

fn missing(alloc: Global, name: &[u8]) -> Result<HierFault, OutOfMemory>
    ensures { IfOk result (λ fault. fault ≡ HierFault.ModuleMissing name.now) }
{
    let name = Text::from_bytes(alloc, name)?;
    Ok(HierFault::ModuleMissing { name })
}

// The first fault of what the module at a place leads to.
fn find_reached_fault(
    alloc: Global,
    cells: &CellNames,
    table: &ModuleTable,
    place: usize,
) -> Result<Option<HierFault>, OutOfMemory>
    requires once { AreOnce table.now }
    requires place { place < length table.now }
    ensures { IfOk result (λ fault. Some fault ≡ option_map (early.reached_fault cells.now table.now) (slice_get table.now place)) }
{
    let graph = module_graph(alloc, table)?;
    let reached = reached_from(alloc, graph.as_slice(), &[place])?;
    match find_missing(cells, table, &reached) {
        Some(name) => return Ok(Some(missing(alloc, name)?)),
        None => {}
    }
    match find_recursive(alloc, table, graph.as_slice(), &reached)? {
        Some(name) => {
            let name = Text::from_bytes(alloc, name)?;
            return Ok(Some(HierFault::ModuleRecursive { name }));
        }
        None => {}
    }
    let counts = counts_of(alloc, table, place)?;
    Ok(find_too_many(counts))
}

/// The first fault of names of modules, of cells that are missing, of modules that hold themselves, and of counts.
pub fn find_early_fault(
    alloc: Global,
    cells: &CellNames,
    table: &ModuleTable,
    top: &[u8],
) -> Result<Option<HierFault>, OutOfMemory>
    ensures { IfOk result (λ fault. fault ≡ early.early_fault cells.now table.now top.now) }
{
    match find_twice(alloc, cells, table.as_slice())? {
        Some(name) => {
            let name = Text::from_bytes(alloc, name)?;
            return Ok(Some(HierFault::ModuleTwice { name }));
        }
        None => {}
    }
    match table.place(top) {
        Some(place) => find_reached_fault(alloc, cells, table, place),
        None => Ok(Some(missing(alloc, top)?)),
    }
}
