// Names of modules that came before, or are a cell's.
ghost use Rattle.std.specs.Prelude.{◌≡◌, ◌++◌, ◌∷◌, [], IfOk, not, if◌then◌else◌};
ghost use Rattle.texts.specs.Repeated.{has_name, bytes_of, seen};
ghost use Rattle.hier_model.specs.Faults.{twice_name};

use crate::cell_names::CellNames;
use indexmap::IndexSet;
use std::alloc::Global;
use texts::OutOfMemory;
use verilog_tree::Module;

/// Notes a name, and says whether it is new.
pub fn note<'a>(table: &mut IndexSet<&'a [u8]>, name: &'a [u8]) -> Result<bool, OutOfMemory>
    ensures { IfOk result (λ fresh. (fresh ≡ not (has_name (seen table.old) name.now))
        × (seen table.new ≡ (if fresh then seen table.old ++ name.now ∷ [] else seen table.old))) }
{
    Ok(table.insert(name)?)
}

/// The name of the first module whose name came before, or is a cell's.
pub fn find_twice<'a>(
    alloc: Global,
    cells: &CellNames,
    modules: &'a [Module],
) -> Result<Option<&'a [u8]>, OutOfMemory>
    ensures { IfOk result (λ name. bytes_of name ≡ twice_name cells.now [] modules.now) }
{
    let mut names = IndexSet::new(alloc);
    for module in modules {
        let name = module.name.as_bytes();
        if cells.has(name) {
            return Ok(Some(name));
        }
        if !note(&mut names, name)? {
            return Ok(Some(name));
        }
    }
    Ok(None)
}
