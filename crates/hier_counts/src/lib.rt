// Whether modules can be made flat, as far as their names, rings and counts go: it is looked at before
// anything is built.
// Contracts cite specs/Early.antt: the faults that come before links and flat names, in their order.
// IEEE Std 1364-2001: modules, module instances; the limits are own.
//
// - `find_early_fault` answers the first of these faults exactly: a module's name that came before or is a cell's; a
//   cell in reached modules that is no module and no cell; the first reached module that holds itself; too many
//   levels, cells or nets.
// - What is reached, what holds itself and what is counted are those of hier_model's definitions.
// - `CellNames` tells exactly the names of the seven cells and of those of a library.
// By the contract of `find_early_fault`, `CellNames`, `note` and `width_of`. What no clause says: time is linear in the
// text, but for the rounds of counts, of which there are as many as there may be levels.
#![tactic(auto)]

mod cell_names;
mod children;
mod early;
mod levels;
mod missing;
mod once;
mod reach;
mod recursion;
mod rings;
mod sizes;
mod widths;

pub use cell_names::CellNames;
pub use early::find_early_fault;
pub use once::note;
pub use widths::width_of;
