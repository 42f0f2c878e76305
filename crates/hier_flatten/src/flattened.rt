// From the modules of a text to the flat module of one, or to the first fault.
ghost use Rattle.std.specs.Prelude.{◌≡◌, List, IfOk, IfErr, IsTrue};
ghost use Rattle.verilog_tree.specs.declared.tree.Module.{Module as ModuleTree};
ghost use Rattle.verilog_modules.specs.Texts.{SpellsModules};
ghost use Rattle.hier_model.specs.Visits.{has_levels};
ghost use Rattle.hier_model.specs.Entries.{level_limit};
ghost use Rattle.hier_flatten.specs.Visited.{IsListed};
ghost use Rattle.hier_flatten.specs.Flattened.{late_fault, IsFlat, IsFlatOf, IsHierFault, IsLateFault, RefusesWords};

use crate::flat::flat_module;
use crate::links::find_bad_link;
use crate::name_checks::find_bad_name;
use crate::nets::NetTables;
use crate::operands::has_few_operands;
use cell_library::Library;
use hier_counts::{CellNames, find_early_fault};
use hier_model::HierFault;
use hier_model::walk::ModuleTable;
use std::alloc::Global;
use texts::{OutOfMemory, Row};
use verilog_lexicon::Words;
use verilog_modules::{SyntaxFault, parse_modules};
use verilog_tree::Module;

/// The modules of a text.
#[derive(Drop)]
pub struct Hier {
    pub modules: Row<Module>,
}

/// The modules that words spell, one after another.
pub fn parse_hier(alloc: Global, words: &Words) -> Result<Hier, SyntaxFault>
    ensures spelled { IfOk result (λ hier. SpellsModules words.now.list hier.modules) }
    ensures only { IfOk result (λ hier. (others : List ModuleTree) → SpellsModules words.now.list others → others ≡ hier.modules) }
    ensures refused { IfErr result (RefusesWords words.now) }
{
    let modules = parse_modules(alloc, words)?;
    Ok(Hier { modules })
}

// The first fault of links and of flat names.
fn find_late_fault(
    alloc: Global,
    tables: &NetTables,
    top: &Module,
) -> Result<Option<HierFault>, OutOfMemory>
    requires listed { IsListed tables.now top.now }
    requires levels { IsTrue (has_levels level_limit tables.now top.now) }
    ensures { IfOk result (λ fault. fault ≡ late_fault tables.now top.now) }
{
    match find_bad_link(alloc, tables, top)? {
        Some(fault) => return Ok(Some(fault)),
        None => {}
    }
    find_bad_name(alloc, tables, top)
}

// The flat module, where no fault of names, rings and counts stands.
fn flatten_counted(alloc: Global, table: &ModuleTable, top: &Module) -> Result<Module, HierFault>
    requires listed { IsListed table.now top.now }
    requires levels { IsTrue (has_levels level_limit table.now top.now) }
    ensures ok { IfOk result (IsFlatOf table.now top.now) }
    ensures fault { IfErr result (IsLateFault table.now top.now) }
{
    let tables = NetTables::of(alloc, table)?;
    match find_late_fault(alloc, &tables, top)? {
        Some(fault) => return Err(fault),
        None => {}
    }
    if !has_few_operands(alloc, table, top)? {
        return Err(HierFault::OutOfMemory);
    }
    Ok(flat_module(alloc, &tables, top)?)
}

/// The flat module of the module of a name, or the first fault.
pub fn flatten(
    alloc: Global,
    hier: &Hier,
    top: &[u8],
    library: &Library,
) -> Result<Module, HierFault>
    ensures ok { IfOk result (IsFlat library.now hier.now.modules top.now) }
    ensures fault { IfErr result (IsHierFault library.now hier.now.modules top.now) }
{
    let cells = CellNames::of(alloc, library)?;
    let table = ModuleTable::of(alloc, hier.modules.as_slice())?;
    match find_early_fault(alloc, &cells, &table, top)? {
        Some(fault) => return Err(fault),
        None => {}
    }
    match table.find(top) {
        Some(module) => flatten_counted(alloc, &table, module),
        // A name of no module is a fault of those that were looked for.
        None => unreachable!(),
    }
}
