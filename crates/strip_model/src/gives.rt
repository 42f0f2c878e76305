// When a netlist and a plan give a module with test logic and a device; specs/Gives.antt has it. Laws on definitions.
// IEEE Std 1149.1-2001: test logic architecture, the annex on BSDL; IEEE Std 1364-2001 for the modules.
//
// - The netlist is what some module denotes, some text spells the plan, which fits it, and there is room for the test
//   logic; the module with test logic is the one that the netlist with it is written as, and the device is the plan's.
// - It doesn't depend on how the netlist is kept; and a link view is laid out.
// By the contract of its law functions.

ghost use Rattle.strip_model.specs.Gives.{GivesByTheView};
ghost use Rattle.strip_model.specs.Laid.{LinkViewIsLaidOut};

/// A law: the same view gives the same.
pub fn gives_by_the_view()
    ensures { GivesByTheView }
{}

/// A law: a link view is laid out.
pub fn link_view_is_laid_out()
    ensures { LinkViewIsLaidOut }
{}
