// The first reached module that holds itself.
ghost use Rattle.std.specs.Prelude.{◌≡◌, ◌<◌, length, Some, None, slice_get, if◌then◌else◌, true, IfOk};
ghost use Rattle.std.specs.Option.{option_map};
ghost use Rattle.texts.specs.Repeated.{bytes_of};
ghost use Rattle.hier_model.specs.Faults as model;
ghost use Rattle.hier_counts.specs.Graph.{module_graph};
ghost use Rattle.hier_counts.specs.Once.{AreOnce};
ghost use Rattle.hier_counts.specs.Marked.{first_marked};
ghost use Rattle.hier_counts.specs.Rings.{NeverRises};

use crate::reach::reached_from;
use crate::rings::Rings;
use hier_model::walk::ModuleTable;
use std::alloc::Global;
use texts::{OutOfMemory, Row};
use verilog_tree::Module;

// Whether the module at a place holds itself.
fn holds_itself(
    alloc: Global,
    table: &ModuleTable,
    graph: &[Row<usize>],
    rings: &Rings,
    place: usize,
) -> Result<bool, OutOfMemory>
    requires once { AreOnce table.now }
    requires graph { graph.now ≡ module_graph table.now }
    requires rings { rings.now.falls ≡ true → NeverRises graph.now rings.now.numbers.items }
    requires place { place < length table.now }
    ensures { IfOk result (λ holds. Some holds ≡ option_map (model.holds_itself table.now) (slice_get table.now place)) }
{
    let children = graph[place].as_slice();
    if rings.clears(place, children) {
        return Ok(false);
    }
    let reached = reached_from(alloc, graph, children)?;
    Ok(reached[place])
}

/// The name of the first module that is marked and holds itself.
pub fn find_recursive<'a>(
    alloc: Global,
    table: &ModuleTable<'a>,
    graph: &[Row<usize>],
    marks: &[bool],
) -> Result<Option<&'a [u8]>, OutOfMemory>
    requires once { AreOnce table.now }
    requires graph { graph.now ≡ module_graph table.now }
    requires marks { length marks.now ≡ length table.now }
    ensures { IfOk result (λ name. bytes_of name
        ≡ first_marked (λ m. if model.holds_itself table.now m then Some m.name else None) marks.now table.now) }
{
    let modules: &'a [Module] = table.as_slice();
    let rings = Rings::of(alloc, graph)?;
    for place in 0..modules.len() {
        if marks[place] && holds_itself(alloc, table, graph, &rings, place)? {
            return Ok(Some(modules[place].name.as_bytes()));
        }
    }
    Ok(None)
}
