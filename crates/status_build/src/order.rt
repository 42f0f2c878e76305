// Where the gates of data registers of a design's own stand in a netlist, a gate before TDO may read what they show in
// the place of the bypass bit. Laws only; specs/OrderLaws.antt has the statement.
// Own.
//
// - What the registers show hangs on flip-flops and on nets that the gate doesn't drive; so the nets can be numbered
//   anew where the gate reads it, and the netlist stays well formed.
// By the contract of its law function.

ghost use Rattle.status_build.specs.OrderLaws.{ShownIsFormed};

use crate::reconnected::reconnected_to_low;
use netlist_model::laws::contained_parts;
use register_gates::constants_are_bits;

/// A well-formed netlist stays so where a gate that reads a flip-flop reads what the registers show.
pub fn shown_is_formed()
    ensures { ShownIsFormed }
{
    contained_parts();
    reconnected_to_low();
    constants_are_bits();
}
