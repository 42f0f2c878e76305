// What holds of the device of a plan that fits a netlist. Its functions are laws.
// IEEE Std 1149.1-2001: boundary-scan register, the annex on BSDL; IEEE Std 1364-2001: lexical conventions.
//
// - `plans_make_devices`: the device keeps the conditions of `IsDevice`, so some text spells it, where the bits of
//   the netlist's own ports, the five of the test access port and linkage are at most 4,096.
// - `plans_suit_netlists`: its boundary cells suit the netlist (`Suits`), as the laws of the wrapped chip want it.
// - `prefixes_are_free`: the prefix is free for the netlist (`IsFreePrefix`), and no name of the test access port
//   begins with it.
// - `tap_names_are_new`: the names of the test access port can be written in a netlist, no two are the same, and
//   none is a port's, wire's, gate's or instance's.
// - `devices_have_ports`: its ports are the netlist's own, by name, direction and range, the test access port's five,
//   and linkage, each in their order.
// - `rows_stand_at_bits`, `bits_have_rows`, `hidden_bits_have_none`: a row that stands at a bit is the one of that
//   bit's net; each bit of the netlist's own ports has one, and no hidden bit has.
// - `rows_take_the_core`, `controls_take_the_core`, `controls_follow_their_rows`: the core's side of a row is what
//   the wrapped chip has there: the data operand of the bit's three-state driver, else the bit's net; for a
//   control cell the control of each driver whose row names it. A control cell stands right behind a row that
//   names it.
// By the contract of its law functions.

mod laws;

pub use laws::{
    bits_have_rows, controls_follow_their_rows, controls_take_the_core, devices_have_ports,
    fitted_is_fitting, hidden_bits_have_none, plans_make_devices, plans_suit_netlists,
    prefixes_are_free, rows_stand_at_bits, rows_take_the_core, tap_names_are_new,
};
