// Laws of written netlists: what a written tree denotes is what was written, with its nets and cells numbered anew.
// Each function has nothing to do, and its contract cites a statement in specs/ImagesLaws.antt.
// IEEE Std 1364-2001: modules and ports, module instances; the numbers are own.
//
// - Any netlist that a written tree denotes with the same library, and so what it links as, is the netlist that was
//   written with its nets and cells numbered anew: a net by its place in the order of writing, a cell by the count of
//   live ones before it.
// - Without gaps cells keep their numbers.
// By the contract of its law functions.

ghost use Rattle.netlist_unlink.specs.ImagesLaws.{DenotedIsRenumbered, WrittenIsRenumbered, DenseKeepsPlaces};

use netlist_model::images::copy_is_renumbering;
use netlist_model::laws::numbers_of_a_dense_netlist;

/// Any netlist that the written tree denotes.
pub fn denoted_is_renumbered()
    ensures { DenotedIsRenumbered }
{
    copy_is_renumbering();
}

/// What the written tree links as.
pub fn written_is_renumbered()
    ensures { WrittenIsRenumbered }
{
    copy_is_renumbering();
}

/// Without gaps, cells keep their numbers.
pub fn dense_keeps_places()
    ensures { DenseKeepsPlaces }
{
    numbers_of_a_dense_netlist();
}
