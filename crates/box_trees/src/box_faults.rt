// The first fault of a module's boxes.
ghost use Rattle.std.specs.Prelude.{◌≡◌, IfOk};
ghost use Rattle.box_model.specs.Faults as faults;

use crate::cut_faults::find_unknown_cut;
use crate::link_faults::find_link_fault;
use crate::name_faults::find_name_fault;
use box_model::BoxFault;
use box_tables::BoxTable;
use std::alloc::Global;
use texts::OutOfMemory;
use verilog_tree::Module;

/// The first fault of a module's cuts, links and hidden names, by which its boxes can't be opened.
pub fn find_box_fault(
    alloc: Global,
    table: &BoxTable<'_>,
    tree: &Module,
) -> Result<Option<BoxFault>, OutOfMemory>
    ensures { IfOk result (λ fault. fault ≡ faults.box_fault table.now tree.now) }
{
    if let Some(fault) = find_unknown_cut(alloc, table, tree)? {
        return Ok(Some(fault));
    }
    if let Some(fault) = find_link_fault(alloc, table, tree)? {
        return Ok(Some(fault));
    }
    let fault = find_name_fault(alloc, table, tree)?;
    Ok(fault)
}
