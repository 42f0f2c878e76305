// The command that checks: reads a netlist, a BSDL text and events, and puts the expectations that the
// netlist doesn't meet.
// Its task stands in specs/CheckTasks.antt, over specs/Checks.antt and specs/CheckFaults.antt.
// IEEE Std 1364-2001 for the netlist, IEEE Std 1149.1-2001 for the device; events and what is put are own.
//
// By the contract of `make`.

mod check_texts;
mod command;

pub use command::Check;
