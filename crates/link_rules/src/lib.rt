// What a module's drivers and clocks must be, and the first fault where they aren't.
// IEEE Std 1364-2001: nets, gates. Derived clocks are own.
//
// - `drivers`: whether each net has the drivers that it may have, or the first fault.
// - `clocks`: the first derived clock of a module whose cells are in order.
#![tactic(auto)]

pub mod clocks;
pub mod drivers;
pub mod lower_cell_order;
pub mod lower_link_model;
