// Laws of the netlist with the test logic built in (stitched_netlist): what it keeps of the core, and where
// its parts stand.
// Each function has nothing to do; specs/Places.antt has the statements.
// IEEE Std 1149.1-2001: test logic architecture, boundary-scan register; the laws are own.
//
// - Of a netlist without gaps it has the ports and, under its number, each cell with its kind and its name
//   (`stitched_keeps`).
// - It contains the cells of each part: of the controller, the instruction, bypass and identification register,
//   each row of the boundary register as gates of a row of its kind (with the driver that HIGHZ adds), and TDO;
//   each with its first net, the number of its first cell, and the next bit towards TDI, which is the first net of
//   the row after it and TDI for the last row (`stitched_holds_its_parts`).
// - Each cell of the core stands under its number by the nets on the core's side of its boundary cells, but for
//   the operands of drivers with a control cell; no two nets of the core become one, and a net that no row moves
//   stays (`stitched_holds_the_core`).
// - All of this holds of every netlist with its library, its ports and its cells under their numbers, whatever else
//   that holds, and whatever net its TDO takes for the bit of the bypass register (`extension_is_built_in`,
//   `stitched_extends`, `stitched_is_built_in`).
// By the contract of its law functions.

ghost use Rattle.stitched_netlist.specs.Places.{
  ExtensionIsBuiltIn,
  StitchedExtends,
  StitchedHoldsParts,
  StitchedHoldsTheCore,
  StitchedIsBuiltIn,
  StitchedKeeps,
};

use netlist_model::laws::contained_parts;

/// The ports are there, and each cell of the core under its number, with its kind and its name.
pub fn stitched_keeps()
    ensures { StitchedKeeps }
{}

/// The cells of each part are there: of the controller, the registers, each row of the boundary register, and TDO.
pub fn stitched_holds_its_parts()
    ensures { StitchedHoldsParts }
{
    contained_parts();
}

/// The core stands inside, by the nets on the core's side of its boundary cells.
pub fn stitched_holds_the_core()
    ensures { StitchedHoldsTheCore }
{}

/// So the test logic is built into it.
pub fn stitched_is_built_in()
    ensures { StitchedIsBuiltIn }
{
    stitched_holds_its_parts();
    stitched_holds_the_core();
}

/// So it is into every netlist that has its library, its ports and its cells under their numbers, whatever
/// else that holds.
pub fn extension_is_built_in()
    ensures { ExtensionIsBuiltIn }
{
    contained_parts();
}

/// The stitched netlist is one.
pub fn stitched_extends()
    ensures { StitchedExtends }
{}
