// Boxes around a chip, and around a netlist that realises it, go on alike. Laws only.
// Own. For IEEE Std 1149.1-2001 see wrapped_chip.
//
// - Where a netlist realises the chip, a run of the chip whose events some boxes allow, by what their inputs have read
//   up to each, is one whose events they allow by what is read there (`coupled_there`), and the other way round
//   (`coupled_here`).
// By the contract of its law functions.

ghost use Rattle.wrapped_chip.specs.Coupled.{CoupledThere, CoupledHere};

/// What boxes around the chip allow, they allow around the netlist.
pub fn coupled_there()
    ensures { CoupledThere }
{}

/// And the other way round.
pub fn coupled_here()
    ensures { CoupledHere }
{}
