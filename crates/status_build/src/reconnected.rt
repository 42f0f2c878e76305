// A netlist in which operands of one gate are another net: when it stays well formed, and that it keeps its control
// ports. Laws only.
// Own.

ghost use Rattle.status_build.specs.ReconnectedLaws.{ReconnectedHasControls, ReconnectedIsFormed, ReconnectedToLow};

/// A well-formed netlist stays so where a gate that reads a flip-flop reads another net instead that can be read, if
/// the nets can be numbered.
pub fn reconnected_is_formed()
    ensures { ReconnectedIsFormed }
{}

/// And its clocks, clears and presets hang on the same nets.
pub fn reconnected_has_controls()
    ensures { ReconnectedHasControls }
{}

/// The nets can be numbered where the other net stands behind gates that read flip-flops and pins only.
pub fn reconnected_to_low()
    ensures { ReconnectedToLow }
{}
