// Netlists that have the stitched netlist's ports and cells, but that TDO's cells take another net's value for the
// bypass bit, and whatever further cells: specs/RunsLaws.antt says how they behave. Laws only.
// Own. For IEEE Std 1149.1-2001 (design-specific test data registers) see status_gates.

ghost use Rattle.open_stitch.specs.Connected.{ConnectedExtends};
ghost use Rattle.open_stitch.specs.RunsLaws.{OpenNetlistsFollow, DrivenWiresStay, PinsByPorts};

use netlist_model::laws::direction_of_a_bit;
use stitched_netlist::inside::built_in_surrounds;
use stitched_netlist::places::extension_is_built_in;
use surrounded_core::surrounded_core_follows;

/// Beside each run of the chip, each run of such a netlist that is well formed reads as the chip, carries its test
/// logic, and TDO moves by that net's value.
pub fn open_netlists_follow()
    ensures { OpenNetlistsFollow }
{
    extension_is_built_in();
    built_in_surrounds();
    surrounded_core_follows();
}

/// A wire of the core that a gate or a flip-flop drives keeps its net.
pub fn driven_wires_stay()
    ensures { DrivenWiresStay }
{
    direction_of_a_bit();
}

/// Its pins are those of its ports.
pub fn pins_are_by_ports()
    ensures { PinsByPorts }
{}

/// The stitched netlist whose gate of TDO reads that net, and whatever else, is one of them.
pub fn connected_extends()
    ensures { ConnectedExtends }
{}
