// What the steps of a listed gate leave.
ghost use Rattle.std.specs.Prelude.{◌≡◌, ◌≤◌, length, IsTrue, slice_index_or};
ghost use Rattle.signal_values.specs.declared.Sig.TheVariants.{Zero};
ghost use Rattle.cell_library.specs.Listed.{steps_output, after_step};
ghost use Rattle.cell_library.specs.Sound.{leaves_one};

use crate::listed::Step;
use crate::stack::Stack;
use signal_values::{Sig, and, mux, not, or, xor};

// The value of an operand; 0 past the last.
fn given(inputs: &[Sig], place: u32) -> Sig
    ensures { result ≡ slice_index_or inputs.now place Zero }
{
    match inputs.get(place as usize) {
        Some(value) => *value,
        None => Sig::Zero,
    }
}

// One step.
fn take_step(stack: &mut Stack, inputs: &[Sig], step: Step)
    requires { length (after_step inputs.now stack.old step) ≤ 16 }
    ensures { stack.new ≡ after_step inputs.now stack.old step }
{
    let value = match step {
        Step::Input(place) => given(inputs, place),
        Step::Const(true) => Sig::One,
        Step::Const(false) => Sig::Zero,
        Step::Not => not(stack.pop()),
        Step::And => {
            let b = stack.pop();
            and(stack.pop(), b)
        }
        Step::Or => {
            let b = stack.pop();
            or(stack.pop(), b)
        }
        Step::Xor => {
            let b = stack.pop();
            xor(stack.pop(), b)
        }
        Step::Mux => {
            let b = stack.pop();
            let a = stack.pop();
            mux(stack.pop(), a, b)
        }
    };
    stack.push(value);
}

// What a gate's steps leave. It takes no memory.
pub(crate) fn output_of_steps(count: usize, steps: &[Step], inputs: &[Sig]) -> Sig
    requires { IsTrue (leaves_one count 0 steps.now) }
    ensures { result ≡ steps_output steps.now inputs.now }
{
    let mut stack = Stack::new();
    for step in steps {
        take_step(&mut stack, inputs, *step);
    }
    stack.pop()
}
