// That a module with test logic tells the netlist without it: laws on definitions.
// IEEE Std 1149.1-2001: boundary-scan register, test access port; IEEE Std 1364-2001: modules and ports.
//
// - By the nets between the core and its boundary cells, each with what the core had in its place, each cell of the
//   core is again what it was; and what was fitted to a netlist can be undone so.
// - The gates of the boundary register, as they are written, tell those nets.
// - Of the module that a netlist with test logic is written as, the last item tells the prefix, the gates the nets
//   between, and what is left of the core is the module of the netlist.
// By the contract of its law functions.

ghost use Rattle.strip_model.specs.Chain.{ChainIsRead};
ghost use Rattle.strip_model.specs.Pairs.{CoreIsUndone};
ghost use Rattle.strip_model.specs.Ready.{FittedCanBeUndone};
ghost use Rattle.strip_model.specs.NetlistsTold.{CoreIsTold};

use stitched_netlist::rows::rows_stand_somewhere;

/// A law: each cell of the core is again what it was.
pub fn core_is_undone()
    ensures { CoreIsUndone }
{}

/// A law: each cell of the core of what was fitted has what it needs to be undone.
pub fn fitted_can_be_undone()
    ensures { FittedCanBeUndone }
{
    rows_stand_somewhere();
}

/// A law: what the gates of the boundary register tell is what was built.
pub fn chain_is_read()
    ensures { ChainIsRead }
{}

/// A law: the prefix, the nets between and the netlist are told.
pub fn core_is_told()
    ensures { CoreIsTold }
{}
