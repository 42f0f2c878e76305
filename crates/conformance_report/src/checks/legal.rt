// The script of event lines that are legal for a netlist and a device.
ghost use Rattle.std.specs.Prelude.{◌≡◌, IfErr, IfOk};
ghost use Rattle.scan_vectors.specs.Scripts.{IsResolved, IsSpelled};
ghost use Rattle.conformance_report.specs.Rules.{IsLinesFault, KeepsTapRule};
ghost use Rattle.conformance_report.specs.Firsts.{lesser};

use crate::checks::tap::first_break;
use bsdl_device::Device;
use netlist_link::Linked;
use scan_vectors::Lines;
use scan_vectors::scripts::{Script, ScriptFault, resolve};
use std::alloc::Global;

/// The script of event lines that are legal for a netlist and keep the rule of a device's test access port, or the
/// first line that is illegal.
#[tactic(auto, using(scan_vectors::proofs::Verdicts::spelled_lengths))]
pub fn resolve_both(
    alloc: Global,
    linked: &Linked,
    device: &Device,
    lines: &Lines,
) -> Result<Script, ScriptFault>
    requires { IsSpelled lines.now }
    ensures ok { IfOk result (λ script. IsResolved linked.now lines.now script.list) }
    ensures kept { IfOk result (λ _. KeepsTapRule device.now lines.now.list) }
    ensures fault { IfErr result (IsLinesFault linked.now device.now lines.now) }
{
    let first = first_break(device, lines);
    match resolve(alloc, lines, linked) {
        Ok(script) => match first {
            None => Ok(script),
            Some(line) => Err(ScriptFault::EventIllegal { line }),
        },
        Err(ScriptFault::EventIllegal { line }) => Err(ScriptFault::EventIllegal {
            line: lesser(first, line),
        }),
        Err(ScriptFault::OutOfMemory) => Err(ScriptFault::OutOfMemory),
    }
}

// The lesser of two numbers, where there is a first.
fn lesser(first: Option<u64>, number: u64) -> u64
    ensures { result ≡ lesser first number }
{
    match first {
        Some(line) => line.min(number),
        None => number,
    }
}
