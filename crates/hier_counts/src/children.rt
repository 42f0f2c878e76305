// The graph of modules: each leads to those that its items are instances of.
ghost use Rattle.std.specs.Prelude.{◌≡◌, IfOk};
ghost use Rattle.hier_counts.specs.Graph as graph;

use hier_model::walk::ModuleTable;
use std::alloc::Global;
use texts::{OutOfMemory, Row};
use verilog_tree::{Item, Module};

/// Where the module stands that an item is an instance of.
pub fn child_place(table: &ModuleTable, item: &Item) -> Option<usize>
    ensures { result ≡ graph.child_place table.now item.now }
{
    match item {
        Item::Instance(instance) => table.place(instance.cell.as_bytes()),
        Item::Gate(_) | Item::Assign { .. } => None,
    }
}

fn child_places(
    alloc: Global,
    table: &ModuleTable,
    module: &Module,
) -> Result<Row<usize>, OutOfMemory>
    ensures { IfOk result (λ places. places ≡ graph.child_places table.now module.now) }
{
    let mut places = Row::new(alloc);
    for item in module.items.as_slice() {
        if let Some(place) = child_place(table, item) {
            places.push(place)?;
        }
    }
    Ok(places)
}

/// The graph of the modules of a table.
pub fn module_graph(alloc: Global, table: &ModuleTable) -> Result<Row<Row<usize>>, OutOfMemory>
    ensures { IfOk result (λ rows. rows ≡ graph.module_graph table.now) }
{
    let mut rows = Row::new(alloc);
    for module in table.as_slice() {
        rows.push(child_places(alloc, table, module)?)?;
    }
    Ok(rows)
}
