// A netlist that is open to data registers of a design's own, into which they are built: the gates of all registers are
// appended, and a gate before TDO reads what they show in the place of the bypass bit. specs/Build.antt has when a
// netlist is open to them, specs/BuildLaws.antt what is left.
// Own.
//
// - `build_registers` leaves exactly the netlist's own cells, but that the one gate reads what the registers show, and
//   the registers' cells behind them (`IsBuiltOn`). It takes no memory and can't refuse.
// - Where the netlist is open to them, it stays well formed (`status_is_formed`) and well named (`status_is_named`).
// By the contract of `build_registers` and two law functions.

ghost use Rattle.status_build.specs.Build.{StatusIsFormed, StatusIsNamed};

mod build;

use crate::formed::{registers_are_formed, registers_are_named};
use crate::order::shown_is_formed;
pub use build::build_registers;
use gate_parts::{appended_count, appended_grows, appended_is_there};
use netlist_link::draft_laws::{appended_is_named, input_is_pure};

/// An open netlist stays well formed where registers are built in.
pub fn status_is_formed()
    ensures { StatusIsFormed }
{
    input_is_pure();
    appended_count();
    appended_grows();
    appended_is_there();
    registers_are_formed();
    shown_is_formed();
}

/// And it stays well named.
pub fn status_is_named()
    ensures { StatusIsNamed }
{
    appended_is_named();
    appended_grows();
    registers_are_named();
}
