// Which ports clock, clear and preset flip-flops where a netlist is built on. Laws only; specs/ControlPortsLaws.antt has the
// statement.
// Own. For IEEE Std 1149.1-2001 (test clock input, test reset input) see wrapped_chip.
//
// - Where cells are added of which each flip-flop is clocked and cleared by TCK and TRST, and gates that read flip-flops
//   read other nets, the control ports stay the core's, TCK and TRST (`grown_has_controls`).
// By the contract of its law function.

ghost use Rattle.status_build.specs.ControlPortsLaws.{GrownHasControls};

/// Cells that TCK and TRST alone clock and clear add no control port, nor do other operands of a gate that reads a
/// flip-flop.
pub fn grown_has_controls()
    ensures { GrownHasControls }
{}
