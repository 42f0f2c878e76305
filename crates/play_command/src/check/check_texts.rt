// From texts that were read to the text of their check.
ghost use Rattle.std.specs.Prelude.{IfErr, IfOk};
ghost use Rattle.netlist_link.specs.Linked.{LinkedView};
ghost use Rattle.command_edges.specs.Spelled.{StandsInNetlist};
ghost use Rattle.play_command.specs.Checks.{IsCheck, SpellsLinked};
ghost use Rattle.play_command.specs.CheckFaults.{IsCheckOf, IsDeviceFor, StandsInAll, StandsInDeviceFor, StandsInOthers};

use bsdl_device::{Device, DeviceTextFault, MeaningKind};
use bsdl_values::read_device;
use cell_library::Library;
use command_faults::Fault;
use conformance_report::checks::{Checked, check_lines};
use conformance_report::ports_agree;
use netlist_link::{Linked, link};
use scan_vectors::read_events;
use std::alloc::Global;
use texts::Text;
use verilog_texts::read_module;

// The netlist that a text spells, with this library.
#[tactic(auto, using(crate::proofs::CheckMade::linked_made))]
fn linked_of<'a>(alloc: Global, net: Text, library: Library) -> Result<Linked, Fault<'a>>
    ensures linked { IfOk result (SpellsLinked library net) }
    ensures fault { IfErr result (StandsInNetlist library net) }
{
    // Asked so that the proof knows that it is a library.
    let _count = library.count();
    let tree = read_module(alloc, net)?;
    Ok(link(alloc, &tree, library)?)
}

// The device that a text spells, if its ports are those of the netlist.
#[tactic(auto, using(crate::proofs::CheckMade::text_fault_made, crate::proofs::CheckMade::device_made))]
fn device_of(alloc: Global, linked: &Linked, text: Text) -> Result<Device, DeviceTextFault>
    ensures device { IfOk result (IsDeviceFor linked.now text) }
    ensures fault { IfErr result (StandsInDeviceFor linked.now text) }
{
    let device = read_device(alloc, text)?;
    if !ports_agree(linked, &device) {
        return Err(DeviceTextFault::BsdlMeaning {
            kind: MeaningKind::Ports,
            place: 0,
        });
    }
    Ok(device)
}

// Checks a netlist by the device and the events that two texts spell.
fn checked_linked<'a>(
    alloc: Global,
    linked: &Linked,
    text: Text,
    events: Text,
) -> Result<Checked, Fault<'a>>
    ensures checked { IfOk result (λ checked.
        IsCheckOf linked.now text events checked.text checked.missed) }
    ensures fault { IfErr result (StandsInOthers linked.now text events) }
{
    let device = device_of(alloc, linked, text)?;
    let lines = read_events(alloc, events.as_bytes())?;
    Ok(check_lines(alloc, linked, &device, &lines)?)
}

/// Checks the netlist that one text spells with this library by the device and the events that two others spell.
#[tactic(auto, using(crate::proofs::CheckMade::netlist_stands))]
pub fn checked<'a>(
    alloc: Global,
    net: Text,
    text: Text,
    events: Text,
    library: Library,
) -> Result<Checked, Fault<'a>>
    ensures checked { IfOk result (λ checked.
        IsCheck library net text events checked.text checked.missed) }
    ensures fault { IfErr result (StandsInAll library net text events) }
{
    let linked = linked_of(alloc, net, library)?;
    checked_linked(alloc, &linked, text, events)
}
