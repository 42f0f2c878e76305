// Laws of drafts: what is added to a well-formed and well-named netlist so that it stays so. Each function
// has nothing to do.
// The contracts cite a statement in specs/ for each law.
// IEEE Std 1364-2001: hierarchical structures, gate-level modelling, data types; what may be added is own.
//
// - A part, which is a table of gates that fits its levels, has no `bufif` and no `assign`, and is handed the
//   clocks, clears and presets of its flip-flops, keeps the netlist well formed where it is handed nets that can
//   be read, and pure ones for those operands, if no net gets two drivers; then the nets of its gates can be read.
//   So does a cell that drives a net which nothing drives.
// - So do parts that are appended one behind another, each of which may read the ones before it (`parts_are_formed`),
//   if no net gets two drivers.
// - More generally so do any cells that drive no port bits, if no net gets two drivers and the nets can be
//   numbered.
// - A wire of one bit under an unused name, and a scalar port which takes that wire, keep it well formed and well
//   named, and cells under added names keep it well named; a name that the table didn't have is unused once it is
//   entered.
// By the contract of its law functions.

ghost use Rattle.netlist_link.specs.Grown.{GrownIsFormed};
ghost use Rattle.netlist_link.specs.DraftLawsNames.{AppendedIsNamed, EnteredIsUnused, LoneWireStays, PortIsNamed, WireIsFormed, WireIsNamed};
ghost use Rattle.netlist_link.specs.Pins.{PortIsFormed};
ghost use Rattle.netlist_link.specs.Sources.{InputIsPure, PartIsNamed};
ghost use Rattle.netlist_link.specs.Parts.{PartsAreFormed};
ghost use Rattle.netlist_link.specs.DraftLawsTables.{DriverIsFormed, PartIsFormed, PartIsReadable};

use gate_parts::{appended_grows, levels_number};
use netlist_model::laws::{bit_of_a_direction, direction_of_a_bit};

/// A netlist to which sound cells are added stays well formed.
pub fn grown_is_formed()
    ensures { GrownIsFormed }
{}

/// The net of an input bit can be read, and can clock, clear or preset.
pub fn input_is_pure()
    ensures { InputIsPure }
{}

/// A netlist to which a part is appended stays well formed.
pub fn part_is_formed()
    ensures { PartIsFormed }
{
    appended_grows();
    levels_number();
    bit_of_a_direction();
}

/// The nets of a part can be read.
pub fn part_is_readable()
    ensures { PartIsReadable }
{
    appended_grows();
    bit_of_a_direction();
}

/// A netlist to which parts are appended one behind another stays well formed, and their nets can be read.
pub fn parts_are_formed()
    ensures { PartsAreFormed }
{
    appended_grows();
    levels_number();
    bit_of_a_direction();
}

/// A netlist to which a driver is appended stays well formed.
pub fn driver_is_formed()
    ensures { DriverIsFormed }
{
    appended_grows();
}

/// A netlist with one scalar port more stays well formed.
pub fn port_is_formed()
    ensures { PortIsFormed }
{
    direction_of_a_bit();
}

/// A name that was not in the table is unused once it is entered.
pub fn entered_is_unused()
    ensures { EnteredIsUnused }
{}

/// A netlist with one wire more, of one bit and under an unused name, stays well formed.
pub fn wire_is_formed()
    ensures { WireIsFormed }
{
    bit_of_a_direction();
}

/// And it stays well named.
pub fn wire_is_named()
    ensures { WireIsNamed }
{
    bit_of_a_direction();
}

/// A netlist where a port takes such a wire stays well named.
pub fn port_is_named()
    ensures { PortIsNamed }
{}

/// A netlist to which named cells are appended stays well named.
pub fn appended_is_named()
    ensures { AppendedIsNamed }
{
    appended_grows();
    bit_of_a_direction();
}

/// A wire of one bit stays one where cells and nets are appended.
pub fn lone_wire_stays()
    ensures { LoneWireStays }
{}

/// The cells of a table of plain gates are named.
pub fn part_is_named()
    ensures { PartIsNamed }
{}
