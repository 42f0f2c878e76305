// Checks a netlist and a device by event lines.
ghost use Rattle.std.specs.Prelude.{IfErr, IfOk};
ghost use Rattle.scan_vectors.specs.Scripts.{IsSpelled};
ghost use Rattle.conformance_report.specs.ChecksLaws.{IsChecked};
ghost use Rattle.conformance_report.specs.Rules.{IsLinesFault};

use crate::checks::check_text::verdict_text;
use crate::checks::legal::resolve_both;
use crate::judge;
use bsdl_device::Device;
use netlist_link::Linked;
use scan_vectors::Lines;
use scan_vectors::scripts::ScriptFault;
use std::alloc::Global;
use texts::Text;

/// The text of a check, and how many expectations aren't met.
#[derive(Drop)]
pub struct Checked {
    pub text: Text,
    pub missed: usize,
}

/// Plays event lines on a netlist with a device's test logic, in which every flip-flop begins unknown, and tells
/// which expectations aren't met; or the first line that is illegal for the netlist, or breaks the rule of the
/// device's test access port.
pub fn check_lines(
    alloc: Global,
    linked: &Linked,
    device: &Device,
    lines: &Lines,
) -> Result<Checked, ScriptFault>
    requires { IsSpelled lines.now }
    ensures ok { IfOk result (λ checked. IsChecked linked.now device.now lines.now checked.text
        checked.missed) }
    ensures fault { IfErr result (IsLinesFault linked.now device.now lines.now) }
{
    let script = resolve_both(alloc, linked, device, lines)?;
    let verdict = judge(alloc, linked, &script)?;
    let text = verdict_text(alloc, lines, &verdict)?;
    Ok(Checked {
        text,
        missed: verdict.missed.len(),
    })
}
