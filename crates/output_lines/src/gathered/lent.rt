ghost use Rattle.std.specs.Prelude.{◌≡◌, ℕ, ◌≤◌, ◌<◌, List, take, length, Option, IfOk, OnErr};
ghost use Rattle.edge_io.specs.Shelf.{Rose, appended};

use edge_io::Failed;
use edge_io::sink::Sink;

/// A sink that stays the one that it is: a put keeps its name.
pub trait Named {
    ghost name: { Self → ℕ };

    ghost given: { Self → Option (List ℕ) };

    ghost faults: { Self → ℕ };

    /// Gives bytes out, as `Sink::put` does.
    fn put_named(&mut self, piece: &[u8]) -> Result<usize, Failed>
        ensures same { name self.new ≡ name self.old }
        ensures count { IfOk result (λ n. n ≤ length piece.now) }
        ensures some { IfOk result (λ n. 0 < length piece.now → 0 < n) }
        ensures added { IfOk result (λ n. given self.new ≡ appended (take n piece.now) (given self.old)) }
        ensures failed { OnErr result (given self.new ≡ given self.old) }
        ensures later { faults self.old ≤ faults self.new }
        ensures cause { OnErr result (Rose (faults self.old) (faults self.new)) };
}

/// A sink that is lent.
#[derive(Drop)]
pub struct Lent<'a, O> {
    pub out: &'a mut O,
}

impl<O: Sink> Named for Lent<'_, O> {
    ghost name = { λ s. s.out.ghost_name };

    ghost given = { λ s. O.given s.out.now };

    ghost faults = { λ s. O.faults s.out.now };

    fn put_named(&mut self, piece: &[u8]) -> Result<usize, Failed> {
        self.out.put(piece)
    }
}
