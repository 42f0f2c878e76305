// The values that stand while a gate's steps are taken.
ghost use Rattle.std.specs.Prelude.{◌≡◌, ◌≤◌, ◌∷◌, [], length};
ghost use Rattle.cell_library.specs.Listed.{top, rest};

use signal_values::Sig;
use std::marker::Model;

/// How many values can stand at once.
const DEPTH: usize = 16;

/// Up to sixteen values, which lie in the value itself, behind the places that are free; the first is on top.
#[derive(Drop)]
pub(crate) struct Stack {
    free: usize,
    values: [Sig; DEPTH],
}

impl Model for Stack {
    ghost use Rattle.std.specs.Prelude.{◌≤◌, List, drop};
    ghost use Rattle.signal_values.specs.declared.Sig.{Sig};

    ghost Value = { List Sig };

    ghost view = { λ s. drop s.free s.values };

    ghost invariant = { λ s. s.free ≤ 16 };
}

impl Stack {
    pub(crate) fn new() -> Stack
        ensures { result ≡ [] }
    {
        Stack {
            free: DEPTH,
            values: [Sig::Zero; DEPTH],
        }
    }

    /// Puts a value on top.
    pub(crate) fn push(&mut self, value: Sig)
        requires { length self.old ≤ 15 }
        ensures { self.new ≡ value ∷ self.old }
    {
        self.free -= 1;
        self.values[self.free] = value;
    }

    /// Takes the value on top; 0 where there is none.
    #[tactic(auto, using(crate::proofs::StepRuns::rest_drop))]
    pub(crate) fn pop(&mut self) -> Sig
        ensures value { result ≡ top self.old }
        ensures left { self.new ≡ rest self.old }
    {
        if self.free == DEPTH {
            return Sig::Zero;
        }
        let value = self.values[self.free];
        self.free += 1;
        value
    }
}
