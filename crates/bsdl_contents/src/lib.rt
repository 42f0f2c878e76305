// What the strings of a BSDL file's sections hold, read into entries.
// The contract of `read_contents` cites `HasContents` and `IsContentsFault` of bsdl_device; specs/Reader.antt
// reads each section.
// IEEE Std 1149.1-2001: the annex on BSDL.
//
// - `read_contents`: on success the strings of each section, joined, hold the contents that are given, and no
//   others.
// - A refusal, but for want of memory, names the first section in the order of the file whose strings hold what
//   they can't; at its first string word the fault is told.
// - A law: the strings of a file hold one list of contents at most.
// - `entries`: the entries of data registers of a design's own in REGISTER_ACCESS, and the file without them.
// By the contract of `read_contents` and its law function.
#![tactic(auto)]

mod cut;
pub mod entries;
mod fault;
mod laws;
mod lists;
mod parts;
mod piece;
mod read;
mod reader;
mod sections;

pub use fault::{ContentsFault, HeldSection};
pub use laws::strings_hold_one_contents;
pub use read::read_contents;
