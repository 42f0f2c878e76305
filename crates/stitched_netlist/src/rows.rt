// What stands at each row of the boundary register of a plan that fits: the net of its bit and that net's direction,
// its driver, and its control cell. Laws only; specs/RowsLaws.antt has the statements.
// IEEE Std 1149.1-2001: boundary-scan register (provision of cells, control cells); the laws are own.
//
// - Each row is that of an input, of an output that is always driven (with or without a driver that HIGHZ adds),
//   of an output or an inout that a three-state gate drives, or a control cell; a driver's row names a control
//   cell, before which the core gives the driver's control operand (`rows_stand_somewhere`).
// - No two rows stand at one net, and each net of a port bit has one, unless the port is hidden: then it has none, is no
//   inout's, and no three-state gate drives it (`rows_stand_once`, `nets_have_rows`).
// By the contract of its law functions.

ghost use Rattle.stitched_netlist.specs.RowsLaws.{RowsStandSomewhere, RowsStandOnce, NetsHaveRows};

use netlist_model::laws::{bit_of_a_direction, direction_of_a_bit, driver_is_found};
use plan_fitting::devices::{bits_have_rows, hidden_bits_have_none, rows_stand_at_bits};

/// A law: each row is that of an input, an output or an inout with a certain driver, or a control cell.
pub fn rows_stand_somewhere()
    ensures { RowsStandSomewhere }
{
    direction_of_a_bit();
    driver_is_found();
}

/// A law: no two rows stand at one net.
pub fn rows_stand_once()
    ensures { RowsStandOnce }
{
    rows_stand_at_bits();
}

/// A law: each net of a port bit has a row, or is a hidden port's and straight.
pub fn nets_have_rows()
    ensures { NetsHaveRows }
{
    bit_of_a_direction();
    driver_is_found();
    rows_stand_at_bits();
    bits_have_rows();
    hidden_bits_have_none();
}
