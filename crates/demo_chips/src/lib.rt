// The demonstration chips: a netlist for each number, of gates that look random, and the plan of all of them.
// Contracts cite specs/Netlists.antt and specs/Plans.antt.
// IEEE Std 1364-2001: gate-level modelling; IEEE Std 1149.1-2001: the annex on BSDL. What the chips are is own.
//
// - `demo_module` and `demo_plan` give exactly those of the definitions.
// - `netlists`: laws: the demonstration netlists can be linked.
// - `plans`: laws: the demonstration plan is spelled, and fits each of them.
// By the contract of the two calls.
#![tactic(auto)]

mod draws;
mod names;
mod netlist;
pub mod netlists;
mod plan;
pub mod plans;

pub use netlist::demo_module;
pub use plan::demo_plan;
