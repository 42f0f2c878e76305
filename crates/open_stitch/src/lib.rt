// Builds the test logic of a plan into the netlist that it fits, so that further data registers can be built on it:
// the bypass bit goes to TDO through a buffer, `through`, whose operand may be another net later.
// Contracts cite specs/Open.antt for the netlist, and specs/Runs.antt for how every netlist behaves that extends it.
// IEEE Std 1149.1-2001: test logic architecture, test data registers; the buffer is own.
//
// - `open_netlist` leaves a netlist with the ports, the nets and the live cells of `stitched_open`, and answers what
//   further registers are to be built on. It takes no memory, no more than the room of `prepare`, and can't refuse
//   after it.
// - Every well-formed netlist with these ports and cells, whatever the buffer reads and whatever further cells it
//   has, reads as the original wrapped in the device's test logic at every pin but TDO; TDO moves as there with the
//   value of the buffer's operand in the place of the bypass bit; the core's flip-flops and its wires hold the
//   core's values, and the nets that are answered carry the test logic (`fitting_plans_are_open`).
// - `runs`: laws: how netlists behave that have the stitched one's cells, with any net for the bypass bit at TDO.
// By the contract of `open_netlist` and a law function.
#![tactic(auto)]

ghost use Rattle.open_stitch.specs.Laws.{FittingPlansAreOpen};

mod netlists;
pub mod runs;

use crate::runs::{driven_wires_stay, open_netlists_follow, pins_are_by_ports};
use cell_library::Kind;
use gate_parts::{Gate, Pin, Pins, contained_part_meets};
use netlist_model::laws::{bit_of_a_direction, found_driver_drives, moments_of_a_run};
use netlist_model::{CellId, NetId};
pub use netlists::open_netlist;
use stitched_netlist::cells::stitched_directions;
use stitched_netlist::ranks::stitched_has_pins;
use stitched_netlist::rows::{nets_have_rows, rows_stand_once, rows_stand_somewhere};
use test_logic::{InstrNets, TapNets};

/// The buffer before TDO. Handed in is what goes there.
pub const THROUGH: [Gate; 1] = [
    Gate {
        kind: Kind::Buf,
        pins: Pins::One(Pin::Given(0)),
    }, // 0: the same
];

/// What further data registers are built on: the nets of the controller and of the instruction, TDI, the bypass bit,
/// and the buffer through which this goes to TDO.
#[derive(Clone, Copy)]
pub struct Parts {
    pub tap: TapNets,
    pub instr: InstrNets,
    pub tdi: NetId,
    pub bypass: NetId,
    pub through: CellId,
}

/// Beside each run of the chip every netlist that extends the one with the buffer follows it, and TDO moves by what the
/// buffer reads.
pub fn fitting_plans_are_open()
    ensures { FittingPlansAreOpen }
{
    open_netlists_follow();
    driven_wires_stay();
    pins_are_by_ports();
    stitched_has_pins();
    contained_part_meets();
    moments_of_a_run();
    found_driver_drives();
    rows_stand_somewhere();
    rows_stand_once();
    nets_have_rows();
    bit_of_a_direction();
    stitched_directions();
}
