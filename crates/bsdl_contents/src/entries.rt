// The entries of the design's own registers in REGISTER_ACCESS, and the file without them.
// The contract of `without_own` cites `HoldExtended` of bsdl_device, and specs/BaseFile.antt.
// IEEE Std 1149.1-2001: the annex on BSDL (register access).
//
// - `without_own` gives a file with as many strings that hold just the profile's registers, and the entries behind
//   them. Where the strings of REGISTER_ACCESS hold what they can't, it is the file itself, and no entries.
// - Inside: such entries begin behind the last comma before the first `[` (`own_place`).
// By the contract of `without_own`.

mod entries;
mod own_place;
mod parted;

pub use parted::{Parted, without_own};
