// The command that shows the BSDL text of a device with registers of its own: reads it, and writes its canonical text.
// Its task stands in specs/ExtendedTasks.antt.
// IEEE Std 1149.1-2001: the annex on BSDL (REGISTER_ACCESS); canonical texts are own.
//
// - The output is the canonical text of the one device that the input spells; nothing is put.
// By the contract of `make`.

mod canonical_text;
mod command;

pub use command::StatusBsdl;
