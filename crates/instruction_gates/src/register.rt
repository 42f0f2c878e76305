// The instruction register as one call: its stages, what tells each opcode that is latched, and what the instruction
// in effect selects.
// Contracts cite specs/Register.antt for the cells and the nets, and specs/RegisterLaws.antt for what they do in every netlist
// that contains them.
// IEEE Std 1149.1-2001: instruction register, instructions.
//
// - `add_instruction` appends exactly the register's cells and answers its nets, by definitions over the codes;
//   for n bits it takes 11 + 7n cells and nets, and 2n for each opcode but that of BYPASS, so at most 11 + 21n. It
//   can't refuse. An instruction without an opcode takes none.
// - In every well-formed netlist that contains the cells, at each moment of a run whose nets carry the levels of
//   the test access port and the controller's state (`instruction_follows`): the shift stage and the latched
//   opcode are the test logic's, with the bit nearest TDO on the net that was answered; and the nets of the
//   selected register, of USERCODE, of the boundary register's capture, shift and update, of EXTEST and of the modes
//   are those of the instruction in effect, for any history; and the latched opcode is on nets one behind another.
// - The codes of each device that some BSDL text describes fit the register (`registers_fit`): patterns as long as
//   it is, and no opcode twice but that of SAMPLE and PRELOAD.
// - So it is of the whole register, step by step, from whatever its stages hold (`instruction_steps`); from
//   Test-Logic-Reset with reset's opcode on the latched bits are 0 or 1, whatever the shift stage holds there, since it
//   captures before it is latched (`instructions_stay_legible`).
// By the contract of `add_instruction` and its law functions.
//
// What the test logic's gates take, for n bits of the instruction register, by the contracts of these calls, and what
// `room_of` of written_netlists sets aside for them:
// - `add_tap`: 49 cells and nets; set aside 140;
// - `add_instruction`: at most 11 + 21n; set aside 100 + 64n;
// - `add_bypass`: 5; set aside 10;
// - `add_ident`: 98 or 99; set aside 130;
// - `add_tdo`: 7 cells and 6 nets; set aside 20;
// - `add_port_nets`: 5 nets; set aside 10;
// - a boundary cell: 3 to 8 cells and 3 to 7 nets; set aside 24;
// - all together: set aside 410 + 64n, and 24 a boundary cell.

ghost use Rattle.std.specs.Prelude.{◌≡◌, ◌+◌, ◌*◌, ◌<◌, ◌≤◌, length};
ghost use Rattle.netlist_model.specs.Lists.{cell_count};
ghost use Rattle.netlist_model.specs.Contained.{IsDense};
ghost use Rattle.gate_parts.specs.Appended.{Appended};
ghost use Rattle.register_gates.specs.Bits.{AreNetsBelow};
ghost use Rattle.instruction_gates.specs.Register.{instruction_size, instruction_cells, instruction_nets};

mod laws;
mod opcodes;
mod stages;

use crate::{add_copies, add_selections};
pub use laws::{instruction_follows, instruction_steps, instructions_stay_legible, registers_fit};
use netlist_arena::Netlist;
use netlist_model::NetId;
use opcodes::add_opcodes;
use register_gates::{added_in_turn, constants_are_bits};
use stages::add_coded_stages;
use test_logic::{Codes, InstrNets, TapNets};

/// Adds the instruction register with these codes to a dense netlist, and answers its nets. For n bits it takes at most
/// 11 + 21 n cells and nets of the room that is there: 11 + 7 n, and 2 n for each opcode but that of BYPASS.
pub fn add_instruction(netlist: &mut Netlist, tap: &TapNets, tdi: NetId, codes: &Codes) -> InstrNets
    requires dense { IsDense netlist.old.lists }
    requires bits { codes.now.length ≤ 32 }
    requires nets { 11 + 21 * codes.now.length ≤ netlist.old.spare.nets }
    requires cells { 11 + 21 * codes.now.length ≤ netlist.old.spare.cells }
    requires clock { AreNetsBelow (length netlist.old.lists.nets) tap.now.tck tap.now.trst }
    requires steps { AreNetsBelow (length netlist.old.lists.nets) tap.now.capture_ir tap.now.shift_ir }
    requires loads { AreNetsBelow (length netlist.old.lists.nets) tap.now.update_ir tap.now.in_reset }
    requires data_steps { AreNetsBelow (length netlist.old.lists.nets) tap.now.capture_dr
        tap.now.shift_dr }
    requires data_update { tap.now.update_dr.0 < length netlist.old.lists.nets }
    requires tdi { tdi.0 < length netlist.old.lists.nets }
    ensures nets { result ≡ instruction_nets (length netlist.old.lists.nets) tap.now tdi codes.now }
    ensures added { Appended netlist.old netlist.new (instruction_size codes.now)
        (instruction_cells (length netlist.old.lists.nets) (cell_count netlist.old.lists) tap.now tdi codes.now) }
    ensures size { instruction_size codes.now ≤ 11 + 21 * codes.now.length }
    ensures dense { IsDense netlist.new.lists }
{
    added_in_turn();
    constants_are_bits();
    let stages = add_coded_stages(netlist, tap, tdi, codes);
    let matched = add_opcodes(netlist, stages.latches, codes);
    let nets = add_selections(netlist, tap, &matched, stages.last);
    add_copies(netlist, stages.latches, codes.length);
    nets
}
