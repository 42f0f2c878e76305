// The gates that select data registers of a design's own: whether the latched opcode is a certain one, and which bit
// goes to TDO. specs/ has their cells and what they do.
// IEEE Std 1149.1-2001: instruction register, design-specific test data registers; the gates are own.
//
// - `add_inverses`, `add_opcode`, `add_wires` and `add_shown` append exactly their cells, and can't refuse: n for an
//   instruction register of n bits, which all data registers share; and for each register n, 2 + 3 b for b wires,
//   and 1.
// - The inverses are those of the bits (`inverses_tell`); where the latched bits are known, the last gate of an opcode
//   tells whether it is latched (`opcodes_tell`); a multiplexer has its register's bit while the register is on, else
//   what stands behind it (`shown_tells`).
// - `parts`: the gates of all registers as one call.
// - `runs`: laws: the test logic with registers that capture the core's wires, and that gates do as it says.
// - `surrounded`: laws: a core with test logic and such registers around it realises the chip with them, and finds home.
// By the contract of the four calls and three law functions.
#![tactic(auto)]

mod inverses;
mod opcodes;
pub mod parts;
pub mod runs;
mod shown;
pub mod surrounded;
mod wires;

ghost use Rattle.status_gates.specs.Opcodes.{InversesTell, OpcodesTell};
ghost use Rattle.status_gates.specs.Shown.{ShownTells};

use cell_library::Kind;
use gate_parts::{Gate, Pin, Pins, contained_part_meets};
pub use inverses::add_inverses;
use netlist_model::laws::contained_parts;
pub use opcodes::add_opcode;
pub use shown::add_shown;
pub use wires::add_wires;

/// Whether a bit and those behind it are an opcode's. Handed in are whether this one is, and whether those are.
pub const BOTH: [Gate; 1] = [
    Gate {
        kind: Kind::And,
        pins: Pins::Two(Pin::Given(0), Pin::Given(1)),
    }, // 0: both
];

/// The bit that goes to TDO. Handed in are that of the registers behind, this one's, and whether this one is selected.
pub const SHOWN: [Gate; 1] = [
    Gate {
        kind: Kind::Mux2,
        pins: Pins::Three(Pin::Given(0), Pin::Given(1), Pin::Given(2)),
    }, // 0: the bit
];

/// The inverses are those of the latched opcode's bits.
pub fn inverses_tell()
    ensures { InversesTell }
{
    contained_parts();
    contained_part_meets();
}

/// The last gate tells whether an opcode is latched.
pub fn opcodes_tell()
    ensures { OpcodesTell }
{
    contained_parts();
    contained_part_meets();
}

/// A multiplexer has its register's bit while the register is on, else what stands behind it.
pub fn shown_tells()
    ensures { ShownTells }
{
    contained_part_meets();
}
