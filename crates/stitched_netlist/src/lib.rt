// The netlist with a plan's test logic built in, as a function, and laws of it.
// IEEE Std 1149.1-2001: test logic architecture, boundary-scan register; the laws are own.
//
// - `model`: the netlist. Definitions.
// - `places`, `inside`: where each part stands, and the core in it, in every netlist that extends it.
// - `cells`, `rows`, `ranks`, `formed`: its cells, its boundary rows, an order of its nets, and that it is well formed.
// - `runs`: the law of the insertion: it realises the chip, is the core alone, finds home.
#![tactic(auto)]

pub mod cells;
pub mod formed;
pub mod inside;
pub mod lower_netlist_unlink;
pub mod lower_plan_fitting;
pub mod model;
pub mod places;
pub mod ranks;
pub mod rows;
pub mod runs;
