// Runs of scripts: plays events on a linked netlist, and puts its readings and the expectations that aren't met.
// The contract of `play` cites specs/Outputs.antt, which stands on the runs of netlist_model.
// Own: no chapter of a standard speaks of it.
//
// Proved, of `play`:
// - Where it ends well, what it gave to the sink is the text of a run of the netlist from the script's starts by
//   its sets, in which every flip-flop begins unknown: the readings of all output and inout bits in the order of
//   the ports, bits from the left; after each set its line's number and the readings that changed; each
//   expectation that isn't met, with its line, the word of its pin, what was wanted and what is read; last the
//   count of sets and of expectations that aren't met. It answers that last count.
// - Where the sink fails, what was given is a front of such a text, and the sink's count of faults rose or stands
//   at its last value.
// - Where memory is short, nothing was given: all memory is taken before the first byte.
// `begin` gives the netlist at the first moment of a script, with every flip-flop unknown: for callers that take
// the lines themselves.
// By the contract of `play` and `begin`.
#![tactic(auto)]

mod fault;
mod label;
pub mod lower_event_sim;
mod moments;
mod readings;
mod script_run;
mod shown;

pub use fault::PlayFault;
pub use moments::begin;
pub use script_run::play;
