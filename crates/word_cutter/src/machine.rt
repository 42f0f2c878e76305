ghost use Rattle.std.specs.Prelude.{◌≡◌, ℕ, ◌+◌, ◌<◌, ◌^◌, length, Option, Some, IfErr, IfOk};
ghost use Rattle.word_cutter.specs.Run.{IsStepFault, Takes};

use crate::fault::CutFault;

/// What a language's words are, as a machine that takes a text byte by byte: its state, its step by a byte at a
/// place, and the words of a text that ends at a place.
pub trait Machine {
    type Words;

    ghost State: { Type 0 };

    ghost state: { Self → State };

    ghost start: { State };

    ghost step: { ℕ → State → ℕ → Option State };

    ghost words: { ℕ → State → Option Self.Words };

    /// Takes some bytes at the front of the piece, which stands at this place, and says how many.
    fn take_run(&mut self, at: u64, piece: &[u8]) -> Result<usize, CutFault>
        requires some { 0 < length piece.now }
        requires room { at + length piece.now < 2 ^ 64 }
        ensures { Takes step at (state self.old) piece.now (state self.new) result };

    /// The words of the text, which ends at this place.
    fn end(self, at: u64) -> Result<Self::Words, CutFault>
        ensures words { IfOk result (λ w. words at (state self) ≡ Some w) }
        ensures fault { IfErr result (λ e. IsStepFault e at (words at (state self))) };
}
