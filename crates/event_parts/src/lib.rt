// What an event goes through turn by turn is made of.
// Own: no chapter of a standard speaks of it.
//
// - `counted_cells`: a gate's value with a counter of evaluations, which takes no bytes.
// - `queues`: numbers below a bound, each at most once, the least first.
// - `keys`: the places at which each number stands in a list.
#![tactic(auto)]

pub mod counted_cells;
pub mod keys;
pub mod queues;
