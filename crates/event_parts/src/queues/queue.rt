// A queue over three lists of words: each word of one has a bit in the next, which tells whether it has any bit.

ghost use Rattle.std.specs.Prelude.{◌≡◌, ◌<◌, ◌≤◌, ◌+◌, ◌*◌, ◌^◌, ◌/◌, ℕ, IfOk, MatchOption, OnSome, length, slice_index};
ghost use Rattle.event_parts.specs.QueuesLaws.{IsEmpty, IsIn, IsLeast, Pops, Pushes, Sums};

use crate::queues::words::{WORD, clear_below, lowest, set_below};
use std::alloc::Global;
use std::marker::Model;
use texts::OutOfMemory;

/// A queue of numbers below a bound that gives the least first.
#[derive(Drop)]
pub struct TurnQueue {
    low: Vec<u64>,
    mid: Vec<u64>,
    top: Vec<u64>,
}

impl Model for TurnQueue {
    ghost use Rattle.std.specs.Prelude.{◌<◌, ◌^◌, ℕ, List, length};
    ghost use Rattle.event_parts.specs.QueuesLaws.{Sums};

    ghost Value = { List ℕ };

    ghost view = { λ q. q.low.items };

    ghost invariant = { λ q. record {
      small : length q.low.items < 2 ^ 32;
      mid_small : length q.mid.items < 2 ^ 32;
      top_small : length q.top.items < 2 ^ 32;
      mid : Sums q.mid.items q.low.items;
      top : Sums q.top.items q.mid.items;
    } };
}

impl TurnQueue {
    /// An empty queue for numbers below a bound.
    pub fn new(alloc: Global, bound: u32) -> Result<TurnQueue, OutOfMemory>
        ensures room { IfOk result (λ queue. bound ≤ 64 * length queue) }
        ensures empty { IfOk result (λ queue. (number : ℕ) → IsIn queue number → ⊥) }
    {
        let low = bound as usize / WORD + 1;
        let mid = low / WORD + 1;
        let top = mid / WORD + 1;
        Ok(TurnQueue {
            low: vec![in alloc; 0; low]?,
            mid: vec![in alloc; 0; mid]?,
            top: vec![in alloc; 0; top]?,
        })
    }

    /// Puts a number into the queue, where it isn't there.
    pub fn push(&mut self, number: usize)
        requires { number < 64 * length self.old }
        ensures { Pushes number self.old self.new }
    {
        set_below(
            self.top.as_mut_slice(),
            self.mid.as_mut_slice(),
            self.low.as_mut_slice(),
            number,
        );
    }

    /// Takes the least number out of the queue, where none is below this one.
    pub fn pop(&mut self, from: usize) -> Option<usize>
        requires { (number : ℕ) → IsIn self.old number → from ≤ number }
        ensures { MatchOption result (IsEmpty self.old self.new)
            (λ number. Pops number self.old self.new) }
    {
        let number = self.least(from)?;
        clear_below(
            self.top.as_mut_slice(),
            self.mid.as_mut_slice(),
            self.low.as_mut_slice(),
            number,
        );
        Some(number)
    }

    // The least number.
    fn least(&self, from: usize) -> Option<usize>
        requires { (number : ℕ) → IsIn self.now number → from ≤ number }
        ensures { MatchOption result ((number : ℕ) → IsIn self.now number → ⊥) (IsLeast self.now) }
    {
        least_of(
            self.top.as_slice(),
            self.mid.as_slice(),
            self.low.as_slice(),
            from,
        )
    }
}

// The least number. It stands often in the word where the search begins.
fn least_of(top: &[u64], mid: &[u64], low: &[u64], from: usize) -> Option<usize>
    requires top { Sums top.now mid.now }
    requires mid { Sums mid.now low.now }
    requires top_small { length top.now < 2 ^ 32 }
    requires mid_small { length mid.now < 2 ^ 32 }
    requires low_small { length low.now < 2 ^ 32 }
    requires from { (number : ℕ) → IsIn low.now number → from ≤ number }
    ensures { MatchOption result ((number : ℕ) → IsIn low.now number → ⊥) (IsLeast low.now) }
{
    let here = from / WORD;
    if here < low.len() && low[here] != 0 {
        return Some(lowest(low, here));
    }
    let Some(first) = first_word(top) else {
        return None;
    };
    let top_bit = lowest(top, first);
    let mid_bit = lowest(mid, top_bit);
    Some(lowest(low, mid_bit))
}

// The first word that isn't 0.
fn first_word(words: &[u64]) -> Option<usize>
    ensures { MatchOption result ((place : ℕ) → slice_index words.now place ≡ 0)
        (λ first. (0 < slice_index words.now first)
        × ((place : ℕ) → 0 < slice_index words.now place → first ≤ place)) }
{
    for place in 0..words.len() {
        if words[place] != 0 {
            return Some(place);
        }
    }
    None
}
