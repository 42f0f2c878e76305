ghost use Rattle.link_rules.specs.DriversLaws.{HaveTheirDrivers};

/// A law: where no fault of drivers stands, and the cells name nets that are there, each net has the drivers that it
/// may have.
pub fn nets_have_their_drivers()
    ensures { HaveTheirDrivers }
{}
