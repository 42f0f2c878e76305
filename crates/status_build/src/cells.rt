// What each cell of the gates of data registers of a design's own is. Laws only; specs/CellsLaws.antt has the statements.
// Own. For IEEE Std 1149.1-2001 (test clock input, test reset input) see wrapped_chip.
//
// - Among the inverses of a latched opcode and the gates of registers each flip-flop is clocked and cleared by the nets
//   that are handed in for it alone (`registers_are_clocked`), and each cell drives a net of its own, behind those of
//   the netlist (`registers_drive_behind`).
// By the contract of its law functions.

ghost use Rattle.status_build.specs.CellsLaws.{RegistersAreClocked, RegistersDriveBehind};

/// TCK and TRST alone control the flip-flops of registers.
pub fn registers_are_clocked()
    ensures { RegistersAreClocked }
{}

/// Their cells drive nets of their own.
pub fn registers_drive_behind()
    ensures { RegistersDriveBehind }
{}
