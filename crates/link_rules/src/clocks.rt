// The first derived clock of a module whose cells are in order.
// Contracts cite specs/Cones.antt, specs/ClocksFaults.antt, and specs/Late.antt of link_model.
// IEEE Std 1364-2001: gate-level modelling; the cones and the fault are own.
//
// - `find_derived` answers the first clock, clear or preset link in the text that has a flip-flop or an inout in
//   its cone, by the flip-flop's name and the net; none exactly where there is none.
// - A law: where no such link is derived, no such operand of a cell is.
// By the contract of `find_derived` and its law function.

mod derived;
mod laws;

pub use derived::find_derived;
pub use laws::controls_are_links;
