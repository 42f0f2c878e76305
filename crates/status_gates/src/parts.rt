// The gates of all data registers of a design's own: of each register what tells whether its opcode is latched, its
// bits, and a multiplexer towards TDO. specs/Registers.antt has the cells, specs/PartsLaws.antt what they do.
// IEEE Std 1149.1-2001: design-specific test data registers; the gates and their order are own.
//
// - `add_registers` appends exactly these cells, and can't refuse: n + 3 + 3 b for a register of b wires and an opcode
//   of n bits. It answers the net whose value goes to TDO in the place of the bypass bit.
// - Where the latched bits are known, each register's net tells whether its opcode is latched, and the net that is
//   answered has the bit of the first register that is selected, else the bypass bit (`registers_tell`).
// By the contract of `add_registers` and a law function.

ghost use Rattle.status_gates.specs.PartsLaws.{RegistersTell};

mod register;
mod registers;

use crate::{opcodes_tell, shown_tells};
use netlist_model::NetId;
use netlist_model::laws::contained_parts;
use register_gates::constants_are_bits;
pub use registers::add_registers;
use test_logic::TapNets;

/// The nets that all registers stand on: those of the controller, TDI, and from these on the latched opcode, bit 0
/// first, and its inverses.
#[derive(Clone, Copy)]
pub struct SharedNets {
    pub tap: TapNets,
    pub tdi: NetId,
    pub opcode: NetId,
    pub inverses: NetId,
}

/// Each register's net tells its opcode, and the last multiplexer has the bit of the first that is selected.
pub fn registers_tell()
    ensures { RegistersTell }
{
    opcodes_tell();
    shown_tells();
    contained_parts();
    constants_are_bits();
}
