// The netlist with the test logic built in (stitched_netlist) is well formed, where a plan fits a netlist without gaps.
// Laws only; specs/FormedLaws.antt has the statements.
// IEEE Std 1149.1-2001: test logic architecture; the laws are own.
//
// - Its ports, drivers and readers are those of a well-formed netlist: counts of operands, one driver for each net
//   at most, drivers of outputs, inouts and of what is read, and where three-state gates stand
//   (`stitched_has_drivers`).
// - With the order and the cones of `stitched_netlist` it is well formed (`stitched_is_formed`).
// - What drives the nets of the controller and of the registers beside the boundary register is none of the
//   netlist's own cells (`stitched_logic_is_added`).
// By the contract of its law functions.

ghost use Rattle.stitched_netlist.specs.FormedLaws.{StitchedHasDrivers, StitchedIsFormed, StitchedLogicIsAdded};

use crate::ranks::{stitched_has_cones, stitched_is_ordered};
use crate::rows::{nets_have_rows, rows_stand_once, rows_stand_somewhere};
use netlist_model::laws::{bit_of_a_direction, numbers_of_a_dense_netlist};

/// Its ports, drivers and readers are those of a well-formed netlist.
pub fn stitched_has_drivers()
    ensures { StitchedHasDrivers }
{
    bit_of_a_direction();
    rows_stand_somewhere();
    rows_stand_once();
    nets_have_rows();
}

/// It is well formed.
pub fn stitched_is_formed()
    ensures { StitchedIsFormed }
{
    stitched_has_drivers();
    stitched_is_ordered();
    stitched_has_cones();
}

/// What drives the nets of the controller and of the registers beside the boundary register is none of the
/// netlist's own cells.
pub fn stitched_logic_is_added()
    ensures { StitchedLogicIsAdded }
{
    bit_of_a_direction();
    rows_stand_somewhere();
    rows_stand_once();
    nets_have_rows();
    numbers_of_a_dense_netlist();
}
