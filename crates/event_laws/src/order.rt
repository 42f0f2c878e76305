// A law of the turns of cells: its contract is the law, from specs/OrderLaws.antt.
// Own: no chapter of a standard speaks of it.
//
// - Where gates behind which no flip-flop stands come first, then flip-flops, then the other gates, each by its place
//   in an order of the cells, no two cells have one turn, and each comes after those that drive what it waits on.
// By the contract of `turns_rise`.

ghost use Rattle.event_laws.specs.OrderLaws.{TurnsRise};

/// Turns by class and place rise along the operands on which cells wait.
pub fn turns_rise()
    ensures { TurnsRise }
{}
