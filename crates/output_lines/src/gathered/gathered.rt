ghost use Rattle.std.specs.Prelude.{◌≡◌, ◌≤◌, ◌<◌, ℕ, List, Option, None, [], length, take, OnOk, OnErr};
ghost use Rattle.edge_io.specs.Shelf.{Rose, appended};
ghost use Rattle.output_lines.specs.GatheredLaws.{HasGrown};

use crate::gathered::lent::Named;
use crate::gathered::page::Page;
use edge_io::Failed;
use edge_io::sink::Sink;
use std::marker::{Brand, PhantomData};

/// Where a sink comes from: the name of the reference to it, and what it was given at first.
pub trait Origin {
    ghost name: { ℕ };

    ghost first: { Option (List ℕ) };
}

impl Origin for Brand {
    ghost name = { 0 };

    ghost first = { None };
}

/// A sink that gathers what it is given, and hands it on to another in large pieces.
#[derive(Drop)]
pub struct Gathered<S: Named, F: Origin> {
    pub lent: S,
    pub page: Page,
    pub of: PhantomData<F>,
    ghost same: { S.name lent ≡ F.name },
    ghost grown: { HasGrown F.first (S.given lent) },
}

// Gives bytes to a sink until it refuses, and says how many it took.
fn put_front<S: Named>(out: &mut S, bytes: &[u8]) -> usize
    ensures same { S.name out.new ≡ S.name out.old }
    ensures within { result ≤ length bytes.now }
    ensures given { S.given out.new ≡ appended (take result bytes.now) (S.given out.old) }
    ensures cause { result < length bytes.now → Rose (S.faults out.old) (S.faults out.new) }
    ensures later { S.faults out.old ≤ S.faults out.new }
{
    let mut at = 0;
    while at < bytes.len() {
        let Ok(n) = out.put_named(&bytes[at..]) else {
            return at;
        };
        at += n;
    }
    at
}

impl<S: Named, F: Origin> Gathered<S, F> {
    /// Hands on what is gathered.
    pub fn hand_on(&mut self) -> Result<(), Failed>
        ensures given { appended self.new.page (S.given self.new.lent)
            ≡ appended self.old.page (S.given self.old.lent) }
        ensures ok { OnOk result (self.new.page ≡ []) }
        ensures later { S.faults self.old.lent ≤ S.faults self.new.lent }
        ensures cause { OnErr result (Rose (S.faults self.old.lent) (S.faults self.new.lent)) }
    {
        let bytes = self.page.as_bytes();
        let count = put_front(&mut self.lent, bytes);
        self.page.pass(count);
        if self.page.is_empty() {
            Ok(())
        } else {
            Err(Failed)
        }
    }
}

impl<S: Named, F: Origin> Sink for Gathered<S, F> {
    ghost given = { λ s. appended s.page (S.given s.lent) };

    ghost faults = { λ s. S.faults s.lent };

    fn put(&mut self, piece: &[u8]) -> Result<usize, Failed> {
        let count = self.page.add(piece);
        if count > 0 || piece.is_empty() {
            return Ok(count);
        }
        self.hand_on()?;
        Ok(self.page.add(piece))
    }
}
