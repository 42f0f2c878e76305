// How many operands and links the items have that stay: no limit of their own bounds them, and past this one memory is
// wanted.
ghost use Rattle.std.specs.Prelude.{◌≡◌, ◌≤◌, ◌↔◌, IfOk, IsTrue};
ghost use Rattle.hier_model.specs.Visits.{has_levels};
ghost use Rattle.hier_model.specs.Walks.{turn_of};
ghost use Rattle.hier_model.specs.Entries.{level_limit};
ghost use Rattle.hier_flatten.specs.Operands as model;

use hier_model::walk::{ModuleTable, Turn, Walk};
use std::alloc::Global;
use texts::OutOfMemory;
use verilog_tree::{Item, Module};

/// As many as a netlist could have: 256 for each of its cells.
const OPERAND_LIMIT: usize = 67_108_864;

fn operands_of(item: &Item) -> usize
    ensures { result ≡ model.item_operands item.now }
{
    match item {
        Item::Gate(gate) => gate.inputs.len(),
        Item::Instance(instance) => instance.links.len(),
        Item::Assign { .. } => 1,
    }
}

// Those of the item of a step, if it has one that stays.
fn step_operands(turn: Turn) -> usize
    ensures { result ≡ model.turn_operands (turn_of turn.entry) }
{
    match turn {
        Turn::Keeps(item) => operands_of(item),
        Turn::Opens(_, _) | Turn::Closes(_, _) => 0,
    }
}

/// Whether the items that stay have no more operands and links than 256 for each cell that a netlist may have.
pub fn has_few_operands(
    alloc: Global,
    modules: &ModuleTable,
    top: &Module,
) -> Result<bool, OutOfMemory>
    requires { IsTrue (has_levels level_limit modules.now top.now) }
    ensures { IfOk result (λ few. IsTrue few
        ↔ (model.operand_count modules.now top.now ≤ model.operand_limit)) }
{
    let mut left = OPERAND_LIMIT;
    let mut walk = Walk::new(alloc, modules, top)?;
    while let Some(step) = walk.next()? {
        let count = step_operands(step.turn);
        if count > left {
            return Ok(false);
        }
        left -= count;
    }
    Ok(true)
}
