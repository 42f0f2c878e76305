// The texts of a module and a plan that were recovered.
ghost use Rattle.std.specs.Prelude.{◌≡◌, [], ◌∷◌, IfOk};
ghost use Rattle.verilog_tree.specs.Canonical.{canonical};
ghost use Rattle.plan_texts.specs.Canonical.{canonical_plan, IsPlan};
ghost use Rattle.command_faults.specs.declared.status.Status.{Status};

use command_edges::Made;
use command_faults::Status;
use plan_texts::print_plan;
use scan_strip::Stripped;
use std::alloc::Global;
use texts::{OutOfMemory, Row, Text};
use verilog_texts::printing::print_module;

// Two texts to be written; nothing is put.
fn both_written(alloc: Global, net: Text, plan: Text) -> Result<Made, OutOfMemory>
    ensures outputs { IfOk result (λ made. made.outputs ≡ net ∷ plan ∷ []) }
    ensures put { IfOk result (λ made. made.put ≡ []) }
    ensures done { IfOk result (λ made. made.status ≡ Status.Done) }
{
    let mut outputs = Row::new(alloc);
    outputs.push(net)?;
    outputs.push(plan)?;
    Ok(Made {
        outputs,
        put: Text::new(alloc),
        status: Status::Done,
    })
}

/// The texts of an answer.
pub fn write_answer(alloc: Global, answer: &Stripped) -> Result<Made, OutOfMemory>
    requires { IsPlan answer.now.plan }
    ensures outputs { IfOk result (λ made. made.outputs
        ≡ canonical answer.now.module ∷ canonical_plan answer.now.plan ∷ []) }
    ensures put { IfOk result (λ made. made.put ≡ []) }
    ensures done { IfOk result (λ made. made.status ≡ Status.Done) }
{
    let net = print_module(alloc, &answer.module)?;
    let plan = print_plan(alloc, &answer.plan)?;
    both_written(alloc, net, plan)
}
