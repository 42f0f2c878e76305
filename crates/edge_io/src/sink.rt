ghost use Rattle.std.specs.Prelude.{◌≡◌, ℕ, ◌≤◌, ◌<◌, List, take, length, Option, IfOk, OnErr};
ghost use Rattle.edge_io.specs.Shelf.{Rose, appended};

use crate::shelf::Failed;

/// One stream of bytes that goes out, as standard output. It never stops telling: what was given goes on
/// from what was told before.
pub trait Sink {
    /// The bytes given so far, where they are told.
    ghost given: { Self → Option (List ℕ) };

    /// How many faults there were. The count stays at its last value, `u64::MAX`.
    ghost faults: { Self → ℕ };

    /// Gives bytes out. `Ok(n)` took the first `n` bytes of the piece, at least one of a piece that has any.
    fn put(&mut self, piece: &[u8]) -> Result<usize, Failed>
        ensures count { IfOk result (λ n. n ≤ length piece.now) }
        ensures some { IfOk result (λ n. 0 < length piece.now → 0 < n) }
        ensures added { IfOk result (λ n. given self.new ≡ appended (take n piece.now) (given self.old)) }
        ensures failed { OnErr result (given self.new ≡ given self.old) }
        ensures later { faults self.old ≤ faults self.new }
        ensures cause { OnErr result (Rose (faults self.old) (faults self.new)) };
}
