// The nets between a netlist's core and its boundary cells, and the core put behind them.
// IEEE Std 1149.1-2001: boundary-scan register; the order of nets is own.
//
// - `sides`: where each boundary cell stands, and the nets between the core and it.
// - `moves`: puts the core behind its boundary cells.
#![tactic(auto)]

pub mod lower_netlist_unlink;
pub mod lower_plan_fitting;
pub mod lower_stitched_netlist;
pub mod moves;
pub mod sides;
