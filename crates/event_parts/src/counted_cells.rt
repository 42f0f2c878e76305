// Evaluations of gates that are counted.
// Contracts cite specs/Gates.antt of cell_library.
// IEEE Std 1364-2001, the chapter on gate level modelling; the count is own.
//
// - `eval_step` gives the value of `eval`, and `eval_pin_step` that of `eval_pin`; each raises the counter by one.
// - `eval_pair_step` gives the value of `eval` for two operands of a kind that takes several, or of a listed gate, from
//   tables that `PairTables::new` makes once, and raises the counter by one.
// - Nothing else raises a counter `Steps`, which takes no bytes.
// By the contract of the three calls, of `PairTables::new`, `pair_of` and `Steps::new`; that nothing else raises it,
// since its field is private.

ghost use Rattle.std.specs.Prelude.{◌≡◌, ◌+◌, ◌∷◌, [], List, length, IsTrue};
ghost use Rattle.cell_library.specs.declared.Kind.{Kind};
ghost use Rattle.cell_library.specs.declared.listed.ListedCell.{ListedCell};
ghost use Rattle.cell_library.specs.Gates.{is_two_state, is_three_state, Takes, gate_output, bufif_output};
ghost use Rattle.event_parts.specs.Pairs.{AreTables, IsPair};

mod pairs;
mod steps;

use cell_library::{Kind, Library, eval, eval_pin};
pub use pairs::{Pair, PairTables, pair_of};
use signal_values::{PinSig, Sig};
use std::sync::ledger::Ledger;
pub use steps::Steps;

/// The output of a gate that always drives, as `eval` gives it; counted.
pub fn eval_step<L: Ledger>(
    library: &Library,
    kind: Kind,
    inputs: &[Sig],
    steps: &mut Steps<L>,
) -> Sig
    requires two_state { IsTrue (is_two_state library.now kind) }
    requires operands { Takes library.now kind (length inputs.now) }
    ensures value { result ≡ gate_output library.now kind inputs.now }
    ensures step { steps.new ≡ steps.old + 1 }
{
    steps.tick();
    eval(library, kind, inputs)
}

/// What a `bufif0` or `bufif1` drives, as `eval_pin` gives it; counted.
pub fn eval_pin_step<L: Ledger>(
    kind: Kind,
    value: Sig,
    control: Sig,
    steps: &mut Steps<L>,
) -> PinSig
    requires { IsTrue (is_three_state kind) }
    ensures value { result ≡ bufif_output kind value control }
    ensures step { steps.new ≡ steps.old + 1 }
{
    steps.tick();
    eval_pin(kind, value, control)
}

/// The output of a gate of two operands, as `eval` gives it; counted.
pub fn eval_pair_step<L: Ledger>(
    tables: &PairTables,
    pair: Pair,
    a: Sig,
    b: Sig,
    steps: &mut Steps<L>,
) -> Sig
    ensures value { (library : List ListedCell) (kind : Kind) → AreTables library tables.now
        → IsPair library kind pair → result ≡ gate_output library kind (a ∷ b ∷ []) }
    ensures step { steps.new ≡ steps.old + 1 }
{
    steps.tick();
    tables.value(pair, a, b)
}
