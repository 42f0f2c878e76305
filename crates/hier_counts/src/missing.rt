// The first cell, in reached modules, that is no module and that no library has.
ghost use Rattle.std.specs.Prelude.{◌≡◌, length};
ghost use Rattle.texts.specs.First.{first_in};
ghost use Rattle.texts.specs.Repeated.{bytes_of};
ghost use Rattle.hier_model.specs.Faults as model;
ghost use Rattle.hier_counts.specs.Marked.{first_marked};

use crate::cell_names::CellNames;
use hier_model::walk::ModuleTable;
use verilog_tree::{Item, Module};

// The cell of an instance, where it is no module and no cell.
fn missing_cell<'a>(cells: &CellNames, table: &ModuleTable, item: &'a Item) -> Option<&'a [u8]>
    ensures { bytes_of result ≡ model.missing_cell cells.now table.now item.now }
{
    let Item::Instance(instance) = item else {
        return None;
    };
    let cell = instance.cell.as_bytes();
    match table.find(cell) {
        Some(_) => None,
        None => { if cells.has(cell) { None } else { Some(cell) } }
    }
}

fn missing_in<'a>(cells: &CellNames, table: &ModuleTable, items: &'a [Item]) -> Option<&'a [u8]>
    ensures { bytes_of result ≡ first_in (model.missing_cell cells.now table.now) items.now }
{
    for item in items {
        match missing_cell(cells, table, item) {
            Some(cell) => return Some(cell),
            None => {}
        }
    }
    None
}

/// The first such cell in the modules that are marked.
pub fn find_missing<'a>(
    cells: &CellNames,
    table: &ModuleTable<'a>,
    reached: &[bool],
) -> Option<&'a [u8]>
    requires { length reached.now ≡ length table.now }
    ensures { bytes_of result
        ≡ first_marked (λ m. first_in (model.missing_cell cells.now table.now) m.items) reached.now table.now }
{
    let modules: &'a [Module] = table.as_slice();
    for place in 0..modules.len() {
        if reached[place] {
            match missing_in(cells, table, modules[place].items.as_slice()) {
                Some(cell) => return Some(cell),
                None => {}
            }
        }
    }
    None
}
