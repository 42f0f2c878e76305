ghost use Rattle.link_rules.specs.Cones.{ControlsAreLinks};

/// A law: where no link of a clock, clear or preset is derived, no such operand of a cell is.
pub fn controls_are_links()
    ensures { ControlsAreLinks }
{}
