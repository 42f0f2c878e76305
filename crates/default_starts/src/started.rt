// The bits that start lines name.
ghost use Rattle.std.specs.Prelude.{◌≡◌, ◌∷◌, ◌++◌, [], length, List, IfOk};
ghost use Rattle.scan_vectors.specs.declared.lines.Line.{Line};
ghost use Rattle.default_starts.specs.Found.{AreStarted};

use netlist_link::Linked;
use scan_vectors::scripts::parts_of;
use scan_vectors::{Act, Line};
use std::alloc::Global;
use texts::OutOfMemory;

/// Of each net, whether a start line names a bit of it.
pub fn started_nets(
    alloc: Global,
    linked: &Linked,
    lines: &[Line],
) -> Result<Vec<bool>, OutOfMemory>
    ensures { IfOk result (λ flags. AreStarted linked.now lines.now flags.items) }
{
    let count = linked.netlist().net_count();
    let mut flags: Vec<bool> = vec![in alloc; false; count as usize]?;
    for line in lines {
        mark_line(flags.as_mut_slice(), linked, line);
    }
    Ok(flags)
}

// Marks the net of the bit that a line names, if it is a start.
fn mark_line(flags: &mut [bool], linked: &Linked, line: &Line)
    requires { length flags.old ≡ length linked.now.arena.lists.nets }
    ensures { (before : List Line) → AreStarted linked.now before flags.old
        → AreStarted linked.now (before ++ line.now ∷ []) flags.new }
{
    let parts = parts_of(line);
    let Act::Start = parts.act else {
        return;
    };
    let Some(pin) = linked.find_pin(parts.word) else {
        return;
    };
    let netlist = linked.netlist();
    netlist.is_laid_out();
    let net = netlist.pin_net(pin);
    flags[net.0 as usize] = true;
}
