// The commands that convert: read a text of one format, and write its canonical text.
// Their task stands in specs/ConvertTasks.antt, over specs/Conversions.antt.
// IEEE Std 1364-2001 for netlists, and IEEE Std 1149.1-2001, the annex on BSDL, for devices; canonical texts are own.
//
// - The output is the canonical text of the one tree or device that the input spells; nothing is put.
// By the contract of `make`.

mod canonical_texts;
mod command;
mod conversion;

pub use command::Convert;
pub use conversion::Conversion;
