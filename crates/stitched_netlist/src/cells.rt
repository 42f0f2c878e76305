// Each cell of the netlist with the test logic built in (stitched_netlist): what it is, how many there are, which nets they
// drive and which they read, and the directions of nets. Laws only: specs/CellsLaws.antt, specs/Sizes.antt,
// specs/CellsLogic.antt and specs/Directions.antt have the statements; what each part's cells read stands for any test of
// nets in proofs/.
// IEEE Std 1149.1-2001: test logic architecture; the laws are own.
//
// - Each live cell is one of the core behind its boundary cells, under its own number, or one of a part of the
//   test logic, by its place in that part, and each of these is there.
// - How many cells and nets the parts have, and so the number of the first cell of each; the whole has no gaps
//   (`stitched_has_counts`).
// - What the gates read and drive stands in proofs/, for any test of nets.
// - The nets of the core keep their directions, those of the test access port have theirs, and no other net has
//   one (`stitched_directions`).
// By the contract of its law functions.

ghost use Rattle.stitched_netlist.specs.Sizes.{StitchedHasCounts};
ghost use Rattle.stitched_netlist.specs.Directions.{StitchedDirections};

use netlist_model::laws::bit_of_a_direction;

/// There are no gaps, and so many cells and nets.
pub fn stitched_has_counts()
    ensures { StitchedHasCounts }
{}

/// The directions of nets.
pub fn stitched_directions()
    ensures { StitchedDirections }
{
    bit_of_a_direction();
}
