// A netlist into which the test logic is built, inside: the core nests in it behind its boundary cells, and the
// device's test logic stands around the core. The stitched netlist is one.
// specs/Inner.antt says which net stands for a net of the core, specs/InsidePlaces.antt where the parts stand,
// specs/InsideLaws.antt that they do.
// IEEE Std 1149.1-2001: test logic architecture, boundary-scan register; the laws are own.
//
// - The core nests in it with its drivers behind boundary cells; a net to which nothing gives a value, and which
//   nothing reads, stands past all nets (`built_in_nests`, `stitched_nests`).
// - The device's test logic stands around the core: ports, codes, controller, registers, and for each row of the
//   plan what its cell takes from the core and gives to the pin or the core, whatever its kind; a hidden port's bit
//   goes straight through (`built_in_surrounds`, `stitched_surrounds`).
// By the contract of its law functions.

ghost use Rattle.stitched_netlist.specs.InsideLaws.{BuiltInNests, BuiltInSurrounds, StitchedNests, StitchedSurrounds};

use crate::places::stitched_is_built_in;
use netlist_model::laws::{
    bit_of_a_direction, contained_parts, direction_of_a_bit, driver_is_found, found_driver_drives,
};
use plan_fitting::devices::{
    bits_have_rows, controls_follow_their_rows, controls_take_the_core, hidden_bits_have_none,
    plans_suit_netlists, rows_stand_at_bits, rows_take_the_core,
};
use plan_fitting::{codes_are_the_devices, control_cells_are_there, opcodes_keep_the_rules};
use surrounded_core::lower_instruction_gates::registers_fit;

/// The core nests in every netlist into which the test logic is built, with its drivers behind boundary cells.
pub fn built_in_nests()
    ensures { BuiltInNests }
{
    direction_of_a_bit();
    bit_of_a_direction();
    driver_is_found();
    found_driver_drives();
    control_cells_are_there();
}

/// And the device's test logic stands around it: the controller, the registers, and a row at each bit.
pub fn built_in_surrounds()
    ensures { BuiltInSurrounds }
{
    built_in_nests();
    direction_of_a_bit();
    bit_of_a_direction();
    driver_is_found();
    found_driver_drives();
    contained_parts();
    control_cells_are_there();
    opcodes_keep_the_rules();
    codes_are_the_devices();
    registers_fit();
    rows_take_the_core();
    controls_take_the_core();
    controls_follow_their_rows();
    rows_stand_at_bits();
    bits_have_rows();
    hidden_bits_have_none();
    plans_suit_netlists();
}

/// So the core nests in the stitched netlist.
pub fn stitched_nests()
    ensures { StitchedNests }
{
    built_in_nests();
    stitched_is_built_in();
}

/// And the test logic stands around it.
pub fn stitched_surrounds()
    ensures { StitchedSurrounds }
{
    built_in_surrounds();
    stitched_is_built_in();
}
