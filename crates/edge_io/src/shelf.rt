ghost use Rattle.std.specs.Prelude.{◌≡◌, ℕ, Bool, ◌≤◌, ◌<◌, List, [], take, length, Option, IfOk, OnOk, OnErr};
ghost use Rattle.edge_io.specs.Shelf.{Access, NoneFell, RoseAt, SameTold, WhereTold, Reads, ChangesOne, StartedIfTold, appended, told_if};

/// A call of a shelf or a sink didn't do its work.
#[derive(Clone, Copy, Drop)]
pub struct Failed;

/// Texts under names, as the files of a machine. A name that isn't there, and an append to a name that
/// wasn't started, are faults, except in [`NeverFails`](crate::NeverFails), which tells nothing written.
///
/// A shelf never stops telling: `held` is the same before and after each call, and `written` is either
/// told by the constant `tells` or goes on from what was told before.
pub trait Shelf {
    /// The bytes that reading a name gives, where they are told.
    ghost held: { Self → List ℕ → Option (List ℕ) };

    /// The bytes written under a name since it was last started, where they are told.
    ghost written: { Self → List ℕ → Option (List ℕ) };

    /// Whether the shelf tells what was written.
    ghost tells: { Bool };

    /// How many faults there were of reads under a name, and of writes: those of several names, and of both kinds, may
    /// be counted together. None is left out but of appends to a name that wasn't started. A count stays at its last
    /// value, `u64::MAX`.
    ghost faults: { Self → Access → List ℕ → ℕ };

    /// Reads what lies under the name from byte `at` on. `Ok(n)` filled the first `n` bytes of `into`, and
    /// `n` is 0 only at the end of the text or where `into` is empty.
    fn read_at(&mut self, name: &str, at: u64, into: &mut [u8]) -> Result<usize, Failed>
        ensures count { IfOk result (λ n. n ≤ length into.new) }
        ensures bytes { IfOk result (λ n. WhereTold (held self.old name.now) (Reads at n into.new)) }
        ensures held { SameTold (held self.old) (held self.new) }
        ensures written { SameTold (written self.old) (written self.new) }
        ensures later { NoneFell (faults self.old) (faults self.new) }
        ensures cause { OnErr result (RoseAt (faults self.old) (faults self.new) Access.reading name.now) };

    /// Begins to write under the name: what was written there before is gone.
    fn start(&mut self, name: &str) -> Result<(), Failed>
        ensures started { OnOk result (ChangesOne (written self.old) (written self.new) name.now
            (λ before after. after ≡ told_if tells [])) }
        ensures failed { OnErr result (SameTold (written self.old) (written self.new)) }
        ensures held { SameTold (held self.old) (held self.new) }
        ensures later { NoneFell (faults self.old) (faults self.new) }
        ensures cause { OnErr result (RoseAt (faults self.old) (faults self.new) Access.writing name.now) };

    /// Adds to what was written under the name. `Ok(n)` took the first `n` bytes of the piece, at least
    /// one of a piece that has any. Where the shelf tells what was written, the name was started; a fault for
    /// want of that needn't be counted.
    fn append(&mut self, name: &str, piece: &[u8]) -> Result<usize, Failed>
        ensures count { IfOk result (λ n. n ≤ length piece.now) }
        ensures some { IfOk result (λ n. 0 < length piece.now → 0 < n) }
        ensures started { OnOk result (StartedIfTold tells (written self.old name.now)) }
        ensures added { IfOk result (λ n. ChangesOne (written self.old) (written self.new) name.now
            (λ before after. after ≡ appended (take n piece.now) before)) }
        ensures failed { OnErr result (SameTold (written self.old) (written self.new)) }
        ensures held { SameTold (held self.old) (held self.new) }
        ensures later { NoneFell (faults self.old) (faults self.new) }
        ensures cause { OnErr result (StartedIfTold tells (written self.old name.now)
            → RoseAt (faults self.old) (faults self.new) Access.writing name.now) };
}
