// The command that makes several modules one: reads modules, and a library of cells if there is one, and writes the
// flat module of one. Its task stands in specs/FlattenTasks.antt, over specs/FlatTexts.antt; the flat module and its faults
// are those of hier_flatten.
// IEEE Std 1364-2001: modules, hierarchical structures and names; the flat module, its limits and canonical texts are
// own.
//
// - The output is the canonical text of the flat module, and that text spells this module and no other; nothing is put.
// - A refusal is a fault of the library's text, of the modules' text, or the first fault of the modules, in this order.
// By the contract of `make`.

mod command;
mod flat_texts;

pub use command::Flatten;
