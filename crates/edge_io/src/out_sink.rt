ghost use Rattle.std.specs.Prelude.{◌≡◌, ◌<◌, ◌≤◌, ℕ, None, IfSome, length};

use crate::calls::one_more;
use crate::shelf::Failed;
use crate::sink::Sink;

/// Standard output, which tells no content. Nothing is kept back: what a call took was handed to the system.
#[derive(Drop)]
pub struct OutSink<'a, R: Print> {
    rt: &'a R,
    faults: u64,
}

impl<'a, R: Print> OutSink<'a, R> {
    /// Standard output, with no fault yet.
    pub fn new(rt: &'a R) -> OutSink<'a, R>
        ensures { result.faults ≡ 0 }
    {
        OutSink { rt, faults: 0 }
    }

    fn write(&self, piece: &[u8]) -> Option<usize>
        ensures { IfSome result (λ n. (n ≤ length piece.now) × (0 < length piece.now → 0 < n)) }
    {
        let count = self.rt.write_some(piece).ok()?;
        if count == 0 && !piece.is_empty() {
            return None;
        }
        Some(count)
    }
}

impl<R: Print> Sink for OutSink<'_, R> {
    ghost given = { λ _. None };

    ghost faults = { λ s. s.faults };

    fn put(&mut self, piece: &[u8]) -> Result<usize, Failed> {
        if let Some(count) = self.write(piece) {
            return Ok(count);
        }
        self.faults = one_more(self.faults);
        Err(Failed)
    }
}
