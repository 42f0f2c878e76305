// What tells of each instruction whether its opcode is latched.

ghost use Rattle.std.specs.Prelude.{◌≡◌, ℕ, ◌+◌, ◌*◌, ◌≤◌, length};
ghost use Rattle.netlist_model.specs.Lists.{cell_count};
ghost use Rattle.netlist_model.specs.Contained.{IsDense};
ghost use Rattle.netlist_model.specs.Below.{IsFeedBelow};
ghost use Rattle.gate_parts.specs.Appended.{Appended};
ghost use Rattle.instruction_gates.specs.Register.{opcode_size, opcode_cells, opcode_told, opcodes_size, opcodes_cells, opcodes_told, AreToldBelow, matched_instructions};

use crate::{Matched, add_match};
use cell_library::Instr;
use gate_parts::{appended_count, appended_none};
use netlist_arena::Netlist;
use netlist_model::{Feed, NetId};
use register_gates::{added_in_turn, constants_are_bits, constants_of};
use test_logic::{Codes, opcode_of};

// Adds what tells whether an instruction's opcode is latched, and answers it; 0 where the instruction has none.
fn add_opcode(netlist: &mut Netlist, latches: NetId, codes: &Codes, instruction: Instr) -> Feed
    requires dense { IsDense netlist.old.lists }
    requires bits { codes.now.length ≤ 32 }
    requires nets { 2 * codes.now.length ≤ netlist.old.spare.nets }
    requires cells { 2 * codes.now.length ≤ netlist.old.spare.cells }
    requires latches { latches.0 + 3 * codes.now.length ≤ length netlist.old.lists.nets }
    ensures told { result ≡ opcode_told (length netlist.old.lists.nets) codes.now instruction }
    ensures added { Appended netlist.old netlist.new (opcode_size codes.now instruction)
        (opcode_cells (length netlist.old.lists.nets) (cell_count netlist.old.lists) latches.0 codes.now instruction) }
    ensures below { (nets : ℕ) → length netlist.new.lists.nets ≤ nets → IsFeedBelow nets result }
    ensures count { length netlist.new.lists.nets
        ≡ length netlist.old.lists.nets + opcode_size codes.now instruction }
    ensures nets_left { netlist.old.spare.nets ≤ netlist.new.spare.nets + 2 * codes.now.length }
    ensures cells_left { netlist.old.spare.cells ≤ netlist.new.spare.cells + 2 * codes.now.length }
    ensures dense { IsDense netlist.new.lists }
{
    appended_none();
    appended_count();
    constants_are_bits();
    match opcode_of(codes.opcodes.as_slice(), instruction) {
        Some(opcode) => {
            let wanted = constants_of(opcode.value);
            add_match(netlist, latches, &wanted[..codes.length as usize])
        }
        None => Feed::Const(false),
    }
}

/// Adds to a dense netlist what tells of each instruction whether its opcode is the one on the latched bits.
pub fn add_opcodes(netlist: &mut Netlist, latches: NetId, codes: &Codes) -> Matched
    requires dense { IsDense netlist.old.lists }
    requires bits { codes.now.length ≤ 32 }
    requires nets { 14 * codes.now.length ≤ netlist.old.spare.nets }
    requires cells { 14 * codes.now.length ≤ netlist.old.spare.cells }
    requires latches { latches.0 + 3 * codes.now.length ≤ length netlist.old.lists.nets }
    ensures told { result ≡ opcodes_told (length netlist.old.lists.nets) codes.now }
    ensures added { Appended netlist.old netlist.new (opcodes_size codes.now matched_instructions)
        (opcodes_cells (length netlist.old.lists.nets) (cell_count netlist.old.lists) latches.0 codes.now matched_instructions) }
    ensures below { AreToldBelow (length netlist.new.lists.nets) result }
    ensures count { length netlist.new.lists.nets
        ≡ length netlist.old.lists.nets + opcodes_size codes.now matched_instructions }
    ensures nets_left { netlist.old.spare.nets ≤ netlist.new.spare.nets + 14 * codes.now.length }
    ensures cells_left { netlist.old.spare.cells ≤ netlist.new.spare.cells + 14 * codes.now.length }
    ensures dense { IsDense netlist.new.lists }
{
    appended_none();
    added_in_turn();
    constants_are_bits();
    let extest = add_opcode(netlist, latches, codes, Instr::Extest);
    let sample = add_opcode(netlist, latches, codes, Instr::Sample);
    let preload = add_opcode(netlist, latches, codes, Instr::Preload);
    let idcode = add_opcode(netlist, latches, codes, Instr::Idcode);
    let highz = add_opcode(netlist, latches, codes, Instr::Highz);
    let clamp = add_opcode(netlist, latches, codes, Instr::Clamp);
    let usercode = add_opcode(netlist, latches, codes, Instr::Usercode);
    Matched {
        extest,
        sample,
        preload,
        idcode,
        highz,
        clamp,
        usercode,
    }
}
