// What data registers of a design's own stand on where a device's test logic is built in. Laws only; specs/PlacesLaws.antt has
// the statements.
// IEEE Std 1149.1-2001: TAP controller, instruction register, bypass register; the laws are own.
//
// - The nets of Capture-DR and Shift-DR and the bypass bit are those of flip-flops, and the nets of the latched opcode
//   are driven by copies of flip-flops (`shared_nets_stand`).
// - A net of the core that no boundary cell moves has a driver where it has one in the core (`wires_stand`).
// By the contract of its law functions.

ghost use Rattle.status_build.specs.PlacesLaws.{SharedNetsStand, WiresStand};

use netlist_model::laws::contained_parts;
use register_gates::constants_are_bits;

/// What the registers share is there.
pub fn shared_nets_stand()
    ensures { SharedNetsStand }
{
    contained_parts();
    constants_are_bits();
}

/// A net of the core that stays is driven as there.
pub fn wires_stand()
    ensures { WiresStand }
{}
