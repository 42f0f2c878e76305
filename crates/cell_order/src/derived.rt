// Which nets hang on flip-flops.

ghost use Rattle.std.specs.Prelude.{◌≡◌, ◌≤◌, ◌<◌, ◌↔◌, ℕ, IsTrue, length};
ghost use Rattle.netlist_model.specs.Orders.{IsCellOrder};
ghost use Rattle.netlist_arena.specs.Looks.{IsLive};
ghost use Rattle.cell_order.specs.Marks.{AddsMarks, HasInCone, IsDrivenBy, IsDrivenFrom, IsMarked, ReadsMarked};

use netlist_arena::Netlist;
use netlist_model::{CellId, Feed};

/// Marks the nets in whose cone a marked net stands, or one that a flip-flop drives. The time is linear in cells and
/// operands.
pub fn mark_derived(netlist: &Netlist, order: &[CellId], marks: &mut [bool])
    requires order { IsCellOrder netlist.now.lists order.now }
    requires long { length marks.old ≡ length netlist.now.lists.nets }
    ensures long { length marks.new ≡ length marks.old }
    ensures derived { (net : ℕ) → IsMarked marks.new net ↔ HasInCone netlist.now.lists marks.old net }
{
    for place in 0..order.len() {
        carry_one(netlist, order[place], marks);
    }
}

// Marks what a cell drives, if it is a flip-flop or reads a marked net.
fn carry_one(netlist: &Netlist, cell: CellId, marks: &mut [bool])
    requires live { IsLive netlist.now.lists cell.0 }
    requires long { length marks.old ≡ length netlist.now.lists.nets }
    ensures { AddsMarks (IsDrivenFrom netlist.now.lists marks.old cell.0) marks.old marks.new }
{
    if netlist.flop(cell).is_some() || reads_marked(netlist, cell, marks) {
        mark_output(netlist, cell, marks);
    }
}

// Marks the net that a cell drives.
fn mark_output(netlist: &Netlist, cell: CellId, marks: &mut [bool])
    requires live { IsLive netlist.now.lists cell.0 }
    requires long { length marks.old ≡ length netlist.now.lists.nets }
    ensures { AddsMarks (IsDrivenBy netlist.now.lists cell.0) marks.old marks.new }
{
    if let Some(net) = netlist.output(cell) {
        marks[net.0 as usize] = true;
    }
}

// Whether a cell reads a marked net.
fn reads_marked(netlist: &Netlist, cell: CellId, marks: &[bool]) -> bool
    requires live { IsLive netlist.now.lists cell.0 }
    requires long { length marks.now ≡ length netlist.now.lists.nets }
    ensures { IsTrue result ↔ ReadsMarked netlist.now.lists marks.now cell.0 }
{
    for place in 0..netlist.feed_count(cell) {
        if let Feed::Net(net) = netlist.feed(cell, place) {
            if marks[net.0 as usize] {
                return true;
            }
        }
    }
    false
}
