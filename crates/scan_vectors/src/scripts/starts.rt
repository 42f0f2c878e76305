ghost use Rattle.std.specs.Prelude.{◌≡◌, ◌<◌, false, [], length, slice_get, IfOk, MatchBool, Some};
ghost use Rattle.scan_vectors.specs.Starts.{HasDone, HasStarted, IsAfter, IsComplete, IsWaiting};

use crate::Act;
use crate::scripts::tables::taken_nets;
use netlist_link::Linked;
use netlist_model::NetId;
use std::alloc::Global;
use std::marker::Model;
use texts::OutOfMemory;

/// Which input and inout bits still want a start. A set or an expect comes only where none does, so a start after one
/// finds that its bit had its own.
#[derive(Drop)]
pub struct Starts {
    // Of each net, whether it is that of a bit that wants a start.
    wanted: Vec<bool>,
    // How many of them there are.
    missing: usize,
}

impl Model for Starts {
    ghost use Rattle.std.specs.Prelude.{◌≡◌, Bool, List, count_by};

    ghost Value = { List Bool };

    ghost view = { λ s. s.wanted.items };

    ghost invariant = { λ s. s.missing ≡ count_by (λ w. w) s.wanted.items };
}

impl Starts {
    /// No line came yet.
    pub fn new(alloc: Global, linked: &Linked) -> Result<Starts, OutOfMemory>
        ensures { IfOk result (IsAfter linked.now []) }
    {
        let wanted = taken_nets(alloc, linked)?;
        let missing = wanted.iter().filter(|wants| **wants).count();
        Ok(Starts { wanted, missing })
    }

    /// Whether no bit wants a start.
    pub fn is_complete(&self) -> bool
        ensures { MatchBool result (IsComplete self.now) (IsWaiting self.now) }
    {
        self.missing == 0
    }

    /// Takes a line that does this with the bit with this net, unless it comes too early or too late.
    pub fn take(&mut self, act: Act, net: NetId) -> bool
        requires { net.0 < length self.old }
        ensures { HasDone act net.0 self.old self.new result }
    {
        match act {
            Act::Start => self.take_start(net),
            Act::Set | Act::Expect => self.is_complete(),
        }
    }

    fn take_start(&mut self, net: NetId) -> bool
        requires { net.0 < length self.old }
        ensures { MatchBool result (HasStarted self.old self.new net.0) (slice_get self.old net.0
            ≡ Some false) }
    {
        let wants = self.wanted[net.0 as usize];
        if wants {
            self.wanted[net.0 as usize] = false;
            self.missing -= 1;
        }
        wants
    }
}
