// Laws of events that evaluate only what waits on a net that changed: each function has nothing to do, and its contract
// is the law.
// Contracts cite specs/Laws.antt over specs/Turns.antt (on what a cell waits, and when its turn is) and specs/Work.antt
// (how far an event is); specs/Counts.antt counts gates.
// Own: IEEE Std 1364-2001, the chapter on scheduling, leaves the order open.
//
// - A start is at rest; from rest an event queues what waits on its net; each turn leaves only what waits on what it
//   changed; with an empty queue the event is the step of the definition, and at rest (the first four functions).
// - Each evaluation is that of a gate with an operand on a net that changed, and none has two; these are never more
//   than the gates, and none where nothing changed (the next five).
// - At rest what a bit reads is had from the values of nets and what is kept of three-state gates (`rest_reads`).
// - `order`: a law: turns by class and place rise along the operands on which cells wait.
#![tactic(auto)]

ghost use Rattle.event_laws.specs.Laws.{CountBegins, CountEnds, EventQueues, EventSteps, NoneIsTouched, RestReads, StartsRest, TouchedAreGates, TurnCounts, TurnKeeps};

pub mod order;

/// At a start nothing is to be done.
pub fn start_is_at_rest()
    ensures { StartsRest }
{}

/// An event queues what waits on its net.
pub fn event_queues()
    ensures { EventQueues }
{}

/// A turn leaves only what waits on what it changed.
pub fn turn_keeps()
    ensures { TurnKeeps }
{}

/// With an empty queue the event is done.
pub fn event_steps()
    ensures { EventSteps }
{}

/// Before the first turn no step is taken.
pub fn count_begins()
    ensures { CountBegins }
{}

/// Each turn of a gate is one of a gate that has an operand on a net that changed, and no gate has two.
pub fn turn_counts()
    ensures { TurnCounts }
{}

/// So there are at most as many steps as such gates.
pub fn count_ends()
    ensures { CountEnds }
{}

/// Never are more gates touched than there are.
pub fn touched_are_gates()
    ensures { TouchedAreGates }
{}

/// Where no net changed no gate is touched.
pub fn none_is_touched()
    ensures { NoneIsTouched }
{}

/// At rest what a bit reads is had from its net's value and what is kept of three-state gates.
pub fn rest_reads()
    ensures { RestReads }
{}
