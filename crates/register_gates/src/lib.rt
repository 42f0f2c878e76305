// The bypass register, the identification register and TDO as gates.
// Contracts cite specs/Registers.antt for the cells and specs/Laws.antt for what they do in every netlist
// that contains them.
// IEEE Std 1149.1-2001: test data registers, bypass register, device identification register, test access port.
//
// - `add_bypass` (5 cells), `add_data` (2 + 3n for n bits), `add_ident` (98, and 1 more where there is a usercode) and
//   `add_tdo` (7, the last of them onto TDO's own net) append exactly their cells and can't refuse.
// - In every well-formed netlist that contains the cells, at each moment of a run whose nets carry the levels of
//   the test access port, the controller's state and the selections: the bypass bit and the identification bits
//   are the test logic's, and what drives TDO is its TDO, high impedance outside the shift states
//   (`bypass_follows`, `ident_follows`, `tdo_follows`). The identification register captures the usercode while
//   USERCODE is in effect, and else the code.
// - A register of any length captures what it is fed, shifts or keeps (`data_registers_follow`).
// - A falling edge of TCK in Test-Logic-Reset lets TDO go, whatever the registers hold (`tdo_lets_go`).
// - `bits`: a bit of a shift stage, one that is held behind it, stages of any length.
// By the contract of the four calls, `constants_of` and its law functions.
#![tactic(auto)]

ghost use Rattle.std.specs.Prelude.{◌≡◌, ◌+◌, ◌*◌, ◌<◌, ◌≤◌, length};
ghost use Rattle.netlist_model.specs.Lists.{cell_count};
ghost use Rattle.netlist_model.specs.Contained.{IsDense};
ghost use Rattle.gate_parts.specs.Appended.{Appended};
ghost use Rattle.register_gates.specs.Bits.{AreNetsBelow};
ghost use Rattle.netlist_model.specs.Below.{AreFeedsBelow};
ghost use Rattle.register_gates.specs.Registers.{selected_cells, selected_steering, bypass_cells, data_cells, data_last};

pub mod bits;
mod constants;
mod ident;
mod laws;
pub mod lower_tap_gates;
mod tdo;

use crate::bits::{Steering, add_shift_bit, add_shift_chain};
use cell_library::Kind;
pub use constants::constants_of;
use gate_parts::{Gate, Pin, Pins, add_part, appended_count, appended_more};
pub use ident::{INVERSE, add_ident};
pub use laws::{
    added_in_turn, bypass_follows, choices_are_bits, constants_are_bits, data_registers_follow,
    ident_follows, steps_by_register, tdo_follows, tdo_lets_go,
};
use netlist_arena::Netlist;
use netlist_model::{Feed, NetId};
use tap_gates::lower_test_logic::{InstrNets, TapNets};
pub use tdo::{TDO, add_tdo};

/// What steers a test data register. Handed in are Capture-DR, Shift-DR, and whether the register is selected.
pub const SELECTED: [Gate; 2] = [
    Gate {
        kind: Kind::And,
        pins: Pins::Two(Pin::Given(0), Pin::Given(2)),
    }, // 0: it captures
    Gate {
        kind: Kind::And,
        pins: Pins::Two(Pin::Given(1), Pin::Given(2)),
    }, // 1: it shifts
];

// Adds what steers a test data register, which captures and shifts only while this net is 1.
fn add_selection(netlist: &mut Netlist, tap: &TapNets, on: NetId) -> Steering
    requires dense { IsDense netlist.old.lists }
    requires nets { 2 ≤ netlist.old.spare.nets }
    requires cells { 2 ≤ netlist.old.spare.cells }
    requires steps { AreNetsBelow (length netlist.old.lists.nets) tap.now.capture_dr tap.now.shift_dr }
    requires on { on.0 < length netlist.old.lists.nets }
    ensures steering { result ≡ selected_steering (length netlist.old.lists.nets) tap.now }
    ensures added { Appended netlist.old netlist.new 2
        (selected_cells (length netlist.old.lists.nets) (cell_count netlist.old.lists) tap.now on) }
    ensures dense { IsDense netlist.new.lists }
{
    let given = [
        Feed::Net(tap.capture_dr),
        Feed::Net(tap.shift_dr),
        Feed::Net(on),
    ];
    let NetId(first) = add_part(netlist, &SELECTED, &given);
    Steering {
        tck: tap.tck,
        trst: tap.trst,
        capture: NetId(first),
        shift: NetId(first + 1),
    }
}

/// Adds the bypass register to a dense netlist, and answers the net of its bit. It takes 5 cells and nets of the
/// room that is there.
pub fn add_bypass(
    netlist: &mut Netlist,
    tap: &TapNets,
    instruction: &InstrNets,
    tdi: NetId,
) -> NetId
    requires dense { IsDense netlist.old.lists }
    requires nets { 5 ≤ netlist.old.spare.nets }
    requires cells { 5 ≤ netlist.old.spare.cells }
    requires clock { AreNetsBelow (length netlist.old.lists.nets) tap.now.tck tap.now.trst }
    requires steps { AreNetsBelow (length netlist.old.lists.nets) tap.now.capture_dr tap.now.shift_dr }
    requires on { instruction.now.bypass_on.0 < length netlist.old.lists.nets }
    requires tdi { tdi.0 < length netlist.old.lists.nets }
    ensures bit { result.0 ≡ length netlist.old.lists.nets + 2 }
    ensures added { Appended netlist.old netlist.new 5 (bypass_cells (length netlist.old.lists.nets)
        (cell_count netlist.old.lists) tap.now instruction.now.bypass_on tdi) }
    ensures dense { IsDense netlist.new.lists }
{
    appended_count();
    appended_more();
    let steering = add_selection(netlist, tap, instruction.bypass_on);
    add_shift_bit(netlist, &steering, Feed::Const(false), tdi)
}

/// Adds a register to a dense netlist that captures these, the first of which is nearest TDO, while this net is 1, and
/// answers the net of the bit nearest TDO. For n bits it takes 2 + 3 n cells and nets of the room that is there.
pub fn add_data(
    netlist: &mut Netlist,
    tap: &TapNets,
    on: NetId,
    tdi: NetId,
    captured: &[Feed],
) -> NetId
    requires dense { IsDense netlist.old.lists }
    requires nets { 2 + 3 * length captured.now ≤ netlist.old.spare.nets }
    requires cells { 2 + 3 * length captured.now ≤ netlist.old.spare.cells }
    requires clock { AreNetsBelow (length netlist.old.lists.nets) tap.now.tck tap.now.trst }
    requires steps { AreNetsBelow (length netlist.old.lists.nets) tap.now.capture_dr tap.now.shift_dr }
    requires on { on.0 < length netlist.old.lists.nets }
    requires tdi { tdi.0 < length netlist.old.lists.nets }
    requires captured { AreFeedsBelow (length netlist.old.lists.nets) captured.now }
    ensures last { result ≡ data_last (length netlist.old.lists.nets) tdi captured.now }
    ensures added { Appended netlist.old netlist.new (2 + 3 * length captured.now)
        (data_cells (length netlist.old.lists.nets) (cell_count netlist.old.lists) tap.now on tdi captured.now) }
    ensures dense { IsDense netlist.new.lists }
{
    appended_count();
    appended_more();
    let steering = add_selection(netlist, tap, on);
    add_shift_chain(netlist, &steering, tdi, captured)
}
