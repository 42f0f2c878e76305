ghost use Rattle.scan_stitch.specs.Laws.{FittedBitsAreThere, FittedCanBeStitched};

use written_netlists::ready::fitted_can_stand_behind;

/// A law: the bits of what was fitted are bits of its ports, and of the netlist's.
pub fn fitted_bits_are_there()
    ensures { FittedBitsAreThere }
{}

/// A law: what was fitted to a netlist without gaps can be built into it.
pub fn fitted_can_be_stitched()
    ensures { FittedCanBeStitched }
{
    fitted_can_stand_behind();
}
