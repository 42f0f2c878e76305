// What the flip-flops of a netlist hold.

ghost use Rattle.std.specs.Prelude.{◌≡◌, ◌+◌, ◌<◌, ◌≤◌, ◌^◌, ℕ, length, option_map, Some, IfOk, IsTrue};
ghost use Rattle.signal_values.specs.declared.Sig.TheVariants.{Unknown};
ghost use Rattle.netlist_model.specs.Lists.{cell_at};
ghost use Rattle.cell_order.specs.Tables.{is_live_flop};
ghost use Rattle.netlist_meaning.specs.States.{IsStateOf, SetsFlop, cell_bound, flops_of, held};

use netlist_arena::Netlist;
use netlist_link::Linked;
use netlist_model::CellId;
use signal_values::Sig;
use std::alloc::Global;
use std::marker::Model;
use texts::OutOfMemory;

/// A value for each flip-flop of a netlist.
#[derive(Drop)]
pub struct State {
    // The flip-flops by rising number, and what each holds by its cell.
    flops: Vec<CellId>,
    pub(crate) values: Vec<Sig>,
}

impl Model for State {
    ghost use Rattle.std.specs.Prelude.{◌<◌, ℕ, length, slice_get, Some, ◌≡◌};
    ghost use Rattle.netlist_model.specs.declared.CellId.{CellId};
    ghost use Rattle.netlist_meaning.specs.States.{StateView};
    ghost use Rattle.netlist_meaning.specs.Tables.{AreCellsBelow};

    ghost Value = { StateView };

    ghost view = { λ s. record { flops = s.flops.items; values = s.values.items } };

    ghost invariant = { λ s. AreCellsBelow (length s.values.items) s.flops.items };
}

impl State {
    /// All unknown.
    pub fn new(alloc: Global, linked: &Linked) -> Result<State, OutOfMemory>
        ensures made { IfOk result (λ state. IsStateOf linked.now state) }
        ensures first { IfOk result (λ state. (number : ℕ) → held state number ≡ Unknown) }
    {
        let bound = cell_bound(linked.order());
        let flops = flops_of(alloc, linked.netlist(), bound)?;
        let values = vec![in alloc; Sig::Unknown; bound]?;
        Ok(State { flops, values })
    }

    /// What each cell holds, by its number.
    pub fn values(&self) -> &[Sig]
        ensures { result.now ≡ self.now.values }
    {
        self.values.as_slice()
    }

    /// Gives the flip-flop with this number a value. Flip-flops are numbered from 0 by rising cell.
    pub fn set(&mut self, flop: u32, value: Sig)
        requires { flop < length self.old.flops }
        ensures flops { self.new.flops ≡ self.old.flops }
        ensures count { length self.new.values ≡ length self.old.values }
        ensures flop { SetsFlop self.old.flops flop value (held self.old) (held self.new) }
    {
        let cell = self.flops[flop as usize];
        self.values[cell.0 as usize] = value;
    }
}

/// One more than the greatest number of these cells.
pub fn cell_bound(cells: &[CellId]) -> usize
    ensures value { result ≡ cell_bound cells.now }
    ensures small { result ≤ 2 ^ 32 }
{
    let mut bound = 0;
    for cell in cells {
        bound = bound.max(cell.0 as usize + 1);
    }
    bound
}

// The flip-flops by rising number, where no cell has this number or a greater one.
fn flops_of(alloc: Global, netlist: &Netlist, bound: usize) -> Result<Vec<CellId>, OutOfMemory>
    requires small { bound ≤ 2 ^ 32 }
    requires bound { (number : ℕ) → bound ≤ number → cell_at netlist.now.lists number ≡ None }
    ensures { IfOk result (λ flops. flops.items ≡ flops_of netlist.now.lists) }
{
    let mut flops = Vec::new(alloc);
    for number in 0..bound {
        let cell = CellId(number as u32);
        if is_flop(netlist, cell) {
            flops.push(cell)?;
        }
    }
    Ok(flops)
}

// Whether a live flip-flop has this number.
fn is_flop(netlist: &Netlist, cell: CellId) -> bool
    ensures { result ≡ is_live_flop netlist.now.lists.library (cell_at netlist.now.lists cell.0) }
{
    netlist.is_live(cell) && netlist.flop(cell).is_some()
}
