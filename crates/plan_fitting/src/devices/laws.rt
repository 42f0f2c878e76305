ghost use Rattle.plan_fitting.specs.DevicesLaws.{PlansMakeDevices, PlansSuitNetlists, PrefixesAreFree, TapNamesAreNew, DevicesHavePorts, RowsStandAtBits, BitsHaveRows, HiddenBitsHaveNone, RowsTakeTheCore, ControlsTakeTheCore, ControlsFollowTheirRows, FittedIsFitting};

use crate::{control_cells_are_there, drivers_agree, highz_disables_all, opcodes_keep_the_rules};
use netlist_model::laws::{
    bit_of_a_direction, direction_of_a_bit, driver_is_found, found_driver_drives,
};
use netlist_unlink::lower_netlist_link::{link_view_is_formed, link_view_is_named};

/// A law: the device of a plan that some text spells and that fits is one that some text spells, where its port
/// bits are few enough.
pub fn plans_make_devices()
    ensures { PlansMakeDevices }
{
    opcodes_keep_the_rules();
    control_cells_are_there();
    drivers_agree();
    highz_disables_all();
    direction_of_a_bit();
    driver_is_found();
}

/// A law: its boundary cells suit the netlist.
pub fn plans_suit_netlists()
    ensures { PlansSuitNetlists }
{
    direction_of_a_bit();
    bit_of_a_direction();
    driver_is_found();
}

/// A law: no name of the netlist or of the test access port begins with its prefix.
pub fn prefixes_are_free()
    ensures { PrefixesAreFree }
{}

/// A law: the names of the test access port can be written, and are no other names of the netlist with it.
pub fn tap_names_are_new()
    ensures { TapNamesAreNew }
{}

/// A law: its ports are the netlist's own, the test access port's and linkage, each in their order.
pub fn devices_have_ports()
    ensures { DevicesHavePorts }
{}

/// A law: each of its rows that stands at a bit is the one of that bit's net.
pub fn rows_stand_at_bits()
    ensures { RowsStandAtBits }
{
    direction_of_a_bit();
    driver_is_found();
}

/// A law: each bit of the netlist's own ports has such a row.
pub fn bits_have_rows()
    ensures { BitsHaveRows }
{
    direction_of_a_bit();
    driver_is_found();
}

/// A law: no bit of a hidden port has one.
pub fn hidden_bits_have_none()
    ensures { HiddenBitsHaveNone }
{
    direction_of_a_bit();
    driver_is_found();
}

/// A law: the core's side of a row at a bit is what the core gives that bit.
pub fn rows_take_the_core()
    ensures { RowsTakeTheCore }
{
    direction_of_a_bit();
    driver_is_found();
    found_driver_drives();
}

/// A law: that of a control cell is the control of each driver whose row names it.
pub fn controls_take_the_core()
    ensures { ControlsTakeTheCore }
{
    direction_of_a_bit();
    driver_is_found();
}

/// A law: a row that stands at no bit is a control cell, right behind a row that names it.
pub fn controls_follow_their_rows()
    ensures { ControlsFollowTheirRows }
{
    direction_of_a_bit();
    driver_is_found();
}

/// A law: what is fitted to a link view of a tree is fitting.
pub fn fitted_is_fitting()
    ensures { FittedIsFitting }
{
    link_view_is_named();
    link_view_is_formed();
}
