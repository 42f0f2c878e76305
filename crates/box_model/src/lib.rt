// Boxes: cells of which nothing is known but their ports, and flip-flops whose output is cut. What a module is with its
// boxes opened, what it is when they are closed again, and when that can't be: definitions, and laws of them.
// Contracts above cite specs/Ports.antt, Opened.antt, Closed.antt, Faults.antt, Counts.antt and Sound.antt.
// Own; IEEE Std 1364-2001 for modules and port connections.
//
// - `BoxLibrary::of_cells` has these cells and neither boxes nor cuts; `is_boxless` tells exactly such libraries.
// - `laws`: without boxes and cuts nothing changes; closing gives back what was opened, and opening what was closed; a
//   closed module's boxes are without fault; opened and closed modules are trees that some text spells; cells and nets
//   of an opened module are as many as they were counted before it was made.
// - `examples`: small modules opened and closed, by computation.
#![tactic(auto)]

mod boxes;
pub mod examples;
mod fault;
pub mod laws;

pub use boxes::{BoxCell, BoxDir, BoxLibrary, BoxPort};
pub use fault::BoxFault;
pub use verilog_tree::Range;
