// The gates of data registers of a design's own, appended to a well-formed netlist: it stays so. Laws only;
// specs/FormedLaws.antt has the statements, specs/Handed.antt the gates as parts.
// Own.
//
// - Where the inverses of the latched opcode and the gates of registers are appended, which are handed nets that can be
//   read and a pure clock and clear, the netlist stays well formed, and the nets that were added can be read.
// - Each of these cells has an added name and an output.
// By the contract of its law functions.

ghost use Rattle.status_build.specs.FormedLaws.{RegistersAreFormed, RegistersAreNamed};

use netlist_link::draft_laws::{part_is_named, parts_are_formed};
use register_gates::constants_are_bits;

/// A netlist to which registers are appended stays well formed.
pub fn registers_are_formed()
    ensures { RegistersAreFormed }
{
    parts_are_formed();
    constants_are_bits();
}

/// Their cells are named as added ones.
pub fn registers_are_named()
    ensures { RegistersAreNamed }
{
    part_is_named();
}
