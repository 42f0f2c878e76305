// A queue of numbers below a bound, each at most once, that gives the least first.
// Contracts cite specs/QueuesLaws.antt: a bit for each number, in words of 64.
// Own: no chapter of a standard speaks of it.
//
// - `TurnQueue::new`, where Ok, is empty and has room for each number below the bound.
// - `push` has the queue hold one number more, where it isn't there; `pop` takes out the least, and answers None
//   exactly where the queue is empty. Neither takes memory, and each looks at a few words.
// By the contract of `new`, `push` and `pop`.

mod queue;
mod words;

pub use queue::TurnQueue;
