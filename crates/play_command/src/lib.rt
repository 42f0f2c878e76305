// The commands that play events, or write them: `sim`, `check`, `vectors`.
// IEEE Std 1364-2001 for netlists; IEEE Std 1149.1-2001, the annex on BSDL, test access port.
#![tactic(auto)]

mod box_netlists;
pub mod check;
pub mod sim;
pub mod vectors;
