// The command that makes vectors: reads a device's BSDL text, and writes the text of the device's program.
// Its task stands in specs/VectorsTasks.antt, over specs/Programs.antt.
// IEEE Std 1149.1-2001 for the device; the text of events is own.
//
// By the contract of `make`.

mod command;
mod program_texts;

pub use command::Vectors;
