// Recovers the module and the plan that a module with test logic and its device come from, if they come from any.
// Contracts cite strip_model's specs/Recovered.antt.
// IEEE Std 1149.1-2001: boundary-scan register, the annex on BSDL; the places of gates are own.
//
// - `recover` answers exactly what the definition gives: nothing, or a module and a plan.
// - `equality`: whether two modules, or two devices, are equal.
// By the contract of `recover`.
#![tactic(auto)]

mod copies;
mod core_items;
mod core_modules;
pub mod equality;
mod pin_lines;
mod plan;
mod prefix;
mod recovery;
mod side_table;
mod sides;
mod tap_lines;

pub use recovery::{Recovered, recover};
