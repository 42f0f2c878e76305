// Laws of a netlist inside another, and of one with its nets and cells numbered anew: each function has nothing to do.
// The contracts cite a statement in specs/Behind.antt or specs/RenumberedLaws.antt for each law.
// IEEE Std 1364-2001: hierarchical structures, and the scheduling that gives nets their values; the laws are own.
//
// - A netlist is nested in another where each of its live cells stands there, under another number and name, by
//   other nets; nets follow no pin and stay undriven as before. The other may give its three-state gates other
//   operands, as a driver behind a boundary cell has. Then the other's settled values, starts and steps of
//   flip-flops, read through the numbers, are its own; of an output bit that such a gate drives, which nobody
//   reads, the value is worked out from the gate's own operands (four laws).
// - A renumbering goes both ways and can be made of a copy whose nets go both ways. It keeps directions, each bit of
//   each port, control and clock ports, readings and runs; and each run has one by the new numbers.
// By the contract of its law functions.

ghost use Rattle.netlist_model.specs.Behind.{BehindMeets, BehindStarts, BehindSteps, OperandsAreGiven};
ghost use Rattle.netlist_model.specs.RenumberedLaws.{CopyIsRenumbering, RenumberingTurns};
ghost use Rattle.netlist_model.specs.RenumberedLaws.{RenumberedBits, RenumberedDirections};
ghost use Rattle.netlist_model.specs.RenumberedLaws.{RenumberedPorts};
ghost use Rattle.netlist_model.specs.RenumberedLaws.{RenumberedReads, RenumberedRuns, RunsHaveImages};

use crate::laws::{driver_is_found, found_driver_drives};

/// A netlist whose three-state gates have other operands in another meets its own equations too.
pub fn nested_behind_meets()
    ensures { BehindMeets }
{
    found_driver_drives();
    driver_is_found();
}

/// Its flip-flops start as those of the other.
pub fn nested_behind_starts()
    ensures { BehindStarts }
{
    found_driver_drives();
}

/// Its flip-flops step as those of the other.
pub fn nested_behind_steps()
    ensures { BehindSteps }
{
    found_driver_drives();
}

/// What its cells read has the other's values.
pub fn operands_are_given()
    ensures { OperandsAreGiven }
{
    found_driver_drives();
}

/// New numbers can be taken back.
pub fn renumbering_turns()
    ensures { RenumberingTurns }
{}

/// A copy whose nets go both ways, without other cells, is a renumbering.
pub fn copy_is_renumbering()
    ensures { CopyIsRenumbering }
{}

/// Each bit of a port has its net's new number.
pub fn renumbered_bits()
    ensures { RenumberedBits }
{}

/// Each net keeps its direction.
pub fn renumbered_directions()
    ensures { RenumberedDirections }
{}

/// Control ports and clock ports stay the same ones.
pub fn renumbered_ports()
    ensures { RenumberedPorts }
{}

/// Each port bit reads the same.
pub fn renumbered_reads()
    ensures { RenumberedReads }
{
    driver_is_found();
}

/// Every run is one under the other numbers.
pub fn renumbered_runs()
    ensures { RenumberedRuns }
{
    driver_is_found();
}

/// Every run has one by the new numbers.
pub fn runs_have_images()
    ensures { RunsHaveImages }
{
    driver_is_found();
}
