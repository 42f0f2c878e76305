ghost use Rattle.std.specs.Prelude.{◌≡◌, ◌↔◌, ◌+◌, ◌^◌, ℕ, List, [], ◌∷◌, ◌++◌, IsErr, OnErr, OnOk, is_err, unwrap_or};
ghost use Rattle.edge_io.specs.Calls.{CallCount, IsListed, call_made};
ghost use Rattle.edge_io.specs.Shelf.{Rose, raised};

use crate::shelf::Failed;
use std::alloc::Global;
use std::marker::Model;
use texts::OutOfMemory;

/// Counts the calls of a shelf or sink in memory, and fails those that are listed.
#[derive(Drop)]
pub struct Calls {
    listed: Vec<u64>,
    next: Option<u64>,
    faults: u64,
}

impl Model for Calls {
    ghost Value = { CallCount };

    ghost view = { λ c. record { listed = c.listed.items; made = unwrap_or c.next (2 ^ 64); faults = c.faults } };
}

impl Calls {
    /// No call is listed, and none was made.
    pub fn new(alloc: Global) -> Calls
        ensures { result ≡ record { listed = []; made = 0; faults = 0 } }
    {
        Calls {
            listed: Vec::new(alloc),
            next: Some(0),
            faults: 0,
        }
    }

    /// Lists a call that is to fail.
    pub fn fail_call(&mut self, number: u64) -> Result<(), OutOfMemory>
        ensures ok { OnOk result (self.new ≡ record self.old {
          listed = self.old.listed
              ++ number ∷ [];
        }) }
        ensures err { OnErr result (self.new ≡ self.old) }
    {
        self.listed.push(number)?;
        Ok(())
    }

    /// Counts a call, and fails it where it is listed.
    pub fn begin(&mut self) -> Result<(), Failed>
        ensures listed { IsErr result ↔ IsListed self.old }
        ensures made { self.new ≡ call_made self.old (is_err result) }
    {
        let Some(number) = self.next else {
            return Ok(());
        };
        self.next = number.checked_add(1);
        if self.listed.contains(&number) {
            return Err(self.fault());
        }
        Ok(())
    }

    /// Counts a fault.
    pub fn fault(&mut self) -> Failed
        ensures { self.new ≡ record self.old { faults = raised self.old.faults } }
    {
        self.faults = one_more(self.faults);
        Failed
    }
}

/// The count after one more fault.
pub fn one_more(faults: u64) -> u64
    ensures { result ≡ raised faults }
{
    faults.saturating_add(1)
}
