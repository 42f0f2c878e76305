// Laws on the demonstration netlists: each is a tree that some text spells, and can be linked. There is no code.
// specs/NetlistsLaws.antt has the statements, over the definitions of demo_chips, verilog_tree and link_model.
// IEEE Std 1364-2001: gate-level modelling, data types; the netlists are own.
//
// - `demo_is_a_tree`: the netlist is a tree that some text spells.
// - `demo_can_be_linked`: it can be linked with any library, so no fault stands in it: no name stands twice, each bit
//   that is read or driven is declared, each net has the one driver that it must have, no gates read in a loop, and
//   clocks and clears are inputs.
// - `demo_has_its_cells`: whatever it is linked to has `100 + 10 * n` gates, 32 flip-flops and 16 outputs.
// By the contract of its law functions.

ghost use Rattle.demo_chips.specs.NetlistsLaws.{DemoCanBeLinked, DemoHasItsCells, DemoIsATree};

use netlist_model::laws::numbers_of_a_dense_netlist;

/// A law: the demonstration netlist of a number is a tree that some text spells.
pub fn demo_is_a_tree()
    ensures { DemoIsATree }
{}

/// A law: no fault stands in it, whatever the library.
pub fn demo_can_be_linked()
    ensures { DemoCanBeLinked }
{}

/// A law: each netlist that it is linked to has `100 + 10 * n` gates, 32 flip-flops and 16 outputs.
pub fn demo_has_its_cells()
    ensures { DemoHasItsCells }
{
    numbers_of_a_dense_netlist();
}
