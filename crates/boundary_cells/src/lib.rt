// Boundary cells as gates: a shift bit, the update bit behind it, and the multiplexer that gives the core or
// the pin its value.
// Contracts cite specs/Cells.antt for the cells, and specs/Laws.antt for what they do in every netlist
// that contains them.
// IEEE Std 1149.1-2001: boundary-scan register, the annex on BSDL (the cells BC_1, BC_2, BC_4 and BC_7).
//
// - `add_observe_cell`, `add_input_cell`, `add_output_cell`, `add_control_cell`, `add_bidir_cell` append exactly
//   the cell's gates, the last of them onto the net that is to carry what the cell gives, and answer the net of
//   the shift bit, the first that is new; the update bit is on the third net after it. Other nets that were free
//   stay free. They can't refuse.
// - In every well-formed netlist that contains the gates (`observe_cells_follow`, `input_cells_follow`,
//   `output_cells_follow`, `control_cells_follow`, `bidir_cells_follow`): where TRST is 0 both bits are 0; a
//   rising edge of TCK takes what a cell of this kind captures under the instruction in effect, or shifts or
//   keeps; a falling edge takes the shift bit into the update bit, or keeps; and at each moment the net carries
//   what the cell gives the core or the driver in the instruction's mode.
// - Each place of the test logic's boundary register steps as these bits do (`rows_step_as_bits`).
// - Gates and nets: BC_4 3 and 3; BC_1 at an input or output 6 and 5; BC_2 at an output 7 and 6; as control cells BC_1
//   7 and 6, BC_2 8 and 7; BC_7 8 and 7.
// By the contract of these calls and its law functions.
#![tactic(auto)]

ghost use Rattle.std.specs.Prelude.{◌≡◌, ◌≢◌, ℕ, ◌+◌, ◌<◌, ◌≤◌, ◌^◌, length, IsTrue};
ghost use Rattle.netlist_model.specs.Lists.{cell_count};
ghost use Rattle.netlist_model.specs.Contained.{IsDense};
ghost use Rattle.netlist_model.specs.Below.{IsFeedBelow, AreFeedsBelow};
ghost use Rattle.netlist_arena.specs.Adds.{IsFree};
ghost use Rattle.gate_parts.specs.Parts.{feed_of, is_sound_pin, is_sound};
ghost use Rattle.gate_parts.specs.Appended.{Appended};
ghost use Rattle.boundary_cells.specs.Cells.{AreScanNetsBelow, is_sound_choice, cells_onto};
ghost use Rattle.boundary_cells.specs.Cells.{stage_count, observe_cells, input_cells, output_cells};

mod laws;
mod tables;
mod three_state;

use cell_library::{BoundaryKind, Kind};
use gate_parts::{
    Gate, Pin, add_driver, add_part, appended_count, appended_more, part_leaves_free_nets,
};
pub use laws::{
    bidir_cells_follow, control_cells_follow, input_cells_follow, observe_cells_follow,
    output_cells_follow, rows_step_as_bits,
};
use netlist_arena::Netlist;
use netlist_model::{Feed, NetId};
use register_gates::bits::{Steering, add_shift_bit};
pub use tables::{
    BC_1, BC_1_CONTROL, BC_1_LEVEL, BC_2, BC_2_CONTROL, BC_2_LEVEL, BC_7_HIGH, BC_7_LOW, Choice,
    UPDATES,
};
use test_logic::ScanNets;
pub use three_state::{add_bidir_cell, add_control_cell};

/// Adds a BC_4 cell to a dense netlist, which observes the pin, and answers the net of its shift bit.
pub fn add_observe_cell(netlist: &mut Netlist, scan: &ScanNets, pin: NetId, scan_in: NetId) -> NetId
    requires dense { IsDense netlist.old.lists }
    requires nets { 3 ≤ netlist.old.spare.nets }
    requires cells { 3 ≤ netlist.old.spare.cells }
    requires scan { AreScanNetsBelow (length netlist.old.lists.nets) scan.now }
    requires pin { pin.0 < length netlist.old.lists.nets }
    requires scan_in { scan_in.0 < length netlist.old.lists.nets }
    ensures shift { result.0 ≡ length netlist.old.lists.nets }
    ensures added { Appended netlist.old netlist.new 3
        (observe_cells (length netlist.old.lists.nets) (cell_count netlist.old.lists) scan.now pin scan_in) }
    ensures dense { IsDense netlist.new.lists }
    ensures free { (net : ℕ) → net < length netlist.old.lists.nets → IsFree netlist.old.lists net
        → IsFree netlist.new.lists net }
{
    part_leaves_free_nets();
    let steering = Steering {
        tck: scan.tck,
        trst: scan.trst,
        capture: scan.capture,
        shift: scan.shift,
    };
    add_shift_bit(netlist, &steering, Feed::Net(pin), scan_in)
}

/// Adds a BC_1 cell of an input to a dense netlist, which gives `into` what the core gets, and answers the net of its
/// shift bit. The update bit is on the third net after it. Nothing drives `into` before.
pub fn add_input_cell(
    netlist: &mut Netlist,
    scan: &ScanNets,
    pin: NetId,
    into: NetId,
    scan_in: NetId,
) -> NetId
    requires dense { IsDense netlist.old.lists }
    requires nets { 5 ≤ netlist.old.spare.nets }
    requires cells { 6 ≤ netlist.old.spare.cells }
    requires scan { AreScanNetsBelow (length netlist.old.lists.nets) scan.now }
    requires pin { pin.0 < length netlist.old.lists.nets }
    requires scan_in { scan_in.0 < length netlist.old.lists.nets }
    requires into { into.0 < length netlist.old.lists.nets }
    requires undriven { IsFree netlist.old.lists into.0 }
    ensures shift { result.0 ≡ length netlist.old.lists.nets }
    ensures added { Appended netlist.old netlist.new 5
        (input_cells (length netlist.old.lists.nets) (cell_count netlist.old.lists) scan.now pin into scan_in) }
    ensures dense { IsDense netlist.new.lists }
    ensures free { (net : ℕ) → net ≢ into.0 → net < length netlist.old.lists.nets
        → IsFree netlist.old.lists net → IsFree netlist.new.lists net }
{
    let given = [
        Feed::Net(scan.tck),
        Feed::Net(scan.trst),
        Feed::Net(scan.capture),
        Feed::Net(scan.shift),
        Feed::Net(scan.update),
        Feed::Net(scan_in),
        Feed::Net(pin),
        Feed::Net(scan.extest),
        Feed::Net(scan.m_in),
    ];
    add_cell_onto(netlist, &BC_1, UPDATES, &given, into)
}

/// Adds a cell of an output to a dense netlist, a BC_2 or else a BC_1, which gives `into` the pin's data, and answers
/// the net of its shift bit. The update bit is on the third net after it. Nothing drives `into` before.
pub fn add_output_cell(
    netlist: &mut Netlist,
    scan: &ScanNets,
    cell: BoundaryKind,
    core: Feed,
    into: NetId,
    scan_in: NetId,
) -> NetId
    requires dense { IsDense netlist.old.lists }
    requires nets { 6 ≤ netlist.old.spare.nets }
    requires cells { 7 ≤ netlist.old.spare.cells }
    requires scan { AreScanNetsBelow (length netlist.old.lists.nets) scan.now }
    requires core { IsFeedBelow (length netlist.old.lists.nets) core }
    requires scan_in { scan_in.0 < length netlist.old.lists.nets }
    requires into { into.0 < length netlist.old.lists.nets }
    requires undriven { IsFree netlist.old.lists into.0 }
    ensures shift { result.0 ≡ length netlist.old.lists.nets }
    ensures added { Appended netlist.old netlist.new (stage_count cell)
        (output_cells cell (length netlist.old.lists.nets) (cell_count netlist.old.lists) scan.now core into scan_in) }
    ensures dense { IsDense netlist.new.lists }
    ensures free { (net : ℕ) → net ≢ into.0 → net < length netlist.old.lists.nets
        → IsFree netlist.old.lists net → IsFree netlist.new.lists net }
{
    let given = [
        Feed::Net(scan.tck),
        Feed::Net(scan.trst),
        Feed::Net(scan.capture),
        Feed::Net(scan.shift),
        Feed::Net(scan.update),
        Feed::Net(scan_in),
        core,
        Feed::Net(scan.extest),
        Feed::Net(scan.m_out),
    ];
    match cell {
        BoundaryKind::Bc2 => add_cell_onto(netlist, &BC_2, UPDATES, &given, into),
        _ => add_cell_onto(netlist, &BC_1, UPDATES, &given, into),
    }
}

// Adds the gates of a table, and the multiplexer that gives `into` its value, and answers the net of the first gate.
pub(crate) fn add_cell_onto(
    netlist: &mut Netlist,
    gates: &[Gate],
    choice: Choice,
    given: &[Feed],
    into: NetId,
) -> NetId
    requires dense { IsDense netlist.old.lists }
    requires nets { length gates.now ≤ netlist.old.spare.nets }
    requires cells { length gates.now < netlist.old.spare.cells }
    requires small { length gates.now ≤ 256 }
    requires sound { IsTrue (is_sound gates.now (length given.now)) }
    requires choice { is_sound_choice (length gates.now) (length given.now) choice }
    requires given { AreFeedsBelow (length netlist.old.lists.nets) given.now }
    requires into { into.0 < length netlist.old.lists.nets }
    requires undriven { IsFree netlist.old.lists into.0 }
    ensures shift { result.0 ≡ length netlist.old.lists.nets }
    ensures added { Appended netlist.old netlist.new (length gates.now)
        (cells_onto gates.now choice given.now (length netlist.old.lists.nets) (cell_count netlist.old.lists) into) }
    ensures dense { IsDense netlist.new.lists }
    ensures free { (net : ℕ) → net ≢ into.0 → net < length netlist.old.lists.nets
        → IsFree netlist.old.lists net → IsFree netlist.new.lists net }
{
    appended_count();
    appended_more();
    part_leaves_free_nets();
    let count = gates.len() as u32;
    let first = add_part(netlist, gates, given);
    let usual = operand(first, count, given, choice.usual);
    let other = operand(first, count, given, choice.other);
    let select = operand(first, count, given, choice.select);
    add_driver(netlist, Kind::Mux2, &[usual, other, select], into);
    first
}

// The operand of a pin, where a part's own nets begin at `first`.
fn operand(first: NetId, count: u32, given: &[Feed], pin: Pin) -> Feed
    requires fits { first.0 + count < 2 ^ 32 }
    requires sound { IsTrue (is_sound_pin count (length given.now) pin) }
    ensures value { result ≡ feed_of first.0 given.now pin }
    ensures below { (nets : ℕ) → first.0 + count ≤ nets → AreFeedsBelow nets given.now
        → IsFeedBelow nets result }
{
    match pin {
        Pin::Own(k) => Feed::Net(NetId(first.0 + u32::from(k))),
        Pin::Given(k) => given[k as usize],
    }
}
