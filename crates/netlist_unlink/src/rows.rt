// The nets of the original wires, in rows of one name.
ghost use Rattle.std.specs.Prelude.{◌≡◌, ◌+◌, ◌<◌, ◌++◌, List, length, slice_get, take, option_map, Some, IfOk};
ghost use Rattle.netlist_unlink.specs.Rows.{before, joined_range, row_of, rows as rows_of, with_row};
ghost use Rattle.netlist_unlink.specs.Flags.{ArePortFlags};

use netlist_link::Linked;
use netlist_model::{Name, NetId, PortId};
use std::alloc::Global;
use texts::OutOfMemory;
use verilog_tree::Range;

/// Nets that follow one another under one original name, by its number, with the range of their indexes.
#[derive(Clone, Copy, PartialEq, Eq)]
pub struct NetRow {
    pub name: u32,
    pub range: Option<Range>,
}

/// The rows of nets that stand in no port, in order. Each net is looked at once.
pub fn wire_rows(alloc: Global, linked: &Linked) -> Result<Vec<NetRow>, OutOfMemory>
    ensures { IfOk result (λ found. found.items
        ≡ rows_of linked.now.arena.lists.ports linked.now.arena.lists.nets) }
{
    let flags = port_flags(alloc, linked)?;
    let mut rows = Vec::new(alloc);
    let mut last = None;
    for number in 0..linked.netlist().net_count() {
        match net_row(linked, &flags, NetId(number)) {
            Some(next) => last = Some(follow(&mut rows, last, next)?),
            None => {}
        }
    }
    if let Some(row) = last {
        rows.push(row)?;
    }
    Ok(rows)
}

// Takes a row with the next one, or puts it after the others and goes on with the next.
fn follow(rows: &mut Vec<NetRow>, last: Option<NetRow>, next: NetRow) -> Result<NetRow, OutOfMemory>
    ensures { IfOk result (λ row. (rest : List NetRow)
        → rows.new.items ++ before row rest ≡ rows.old.items ++ with_row last (before next rest)) }
{
    let Some(row) = last else {
        return Ok(next);
    };
    if row.name == next.name {
        return Ok(NetRow {
            name: row.name,
            range: join(row.range, next.range),
        });
    }
    rows.push(row)?;
    Ok(next)
}

fn join(first: Option<Range>, last: Option<Range>) -> Option<Range>
    ensures { result ≡ joined_range first last }
{
    match (first, last) {
        (Some(first), Some(last)) => Some(Range {
            left: first.left,
            right: last.right,
        }),
        _ => None,
    }
}

// The row of one net, if it stands in no port and has an original name.
fn net_row(linked: &Linked, flags: &[bool], net: NetId) -> Option<NetRow>
    requires there { net.0 < length linked.now.arena.lists.nets }
    requires flags { ArePortFlags linked.now.names linked.now.arena.lists.ports flags.now }
    ensures { option_map (row_of linked.now.arena.lists.ports)
        (slice_get linked.now.arena.lists.nets net.0) ≡ Some result }
{
    let netlist = linked.netlist();
    let index = netlist.net_index(net);
    match netlist.net_name(net) {
        Name::Original(number) => {
            if flags[number as usize] {
                None
            } else {
                Some(NetRow {
                    name: number,
                    range: index.map(|index| Range {
                        left: index,
                        right: index,
                    }),
                })
            }
        }
        Name::Added(_) => None,
    }
}

// Of each number of a name, whether a port has it.
fn port_flags(alloc: Global, linked: &Linked) -> Result<Vec<bool>, OutOfMemory>
    ensures { IfOk result (λ flags. ArePortFlags linked.now.names linked.now.arena.lists.ports
        flags.items) }
{
    let mut flags = vec![in alloc; false; linked.name_count() as usize]?;
    for number in 0..linked.netlist().port_count() {
        note_port(flags.as_mut_slice(), linked, PortId(number));
    }
    Ok(flags)
}

// Notes the name of a port.
fn note_port(flags: &mut [bool], linked: &Linked, port: PortId)
    requires there { port.0 < length linked.now.arena.lists.ports }
    requires before { ArePortFlags linked.now.names (take port.0 linked.now.arena.lists.ports) flags.old }
    ensures { ArePortFlags linked.now.names (take (port.0 + 1) linked.now.arena.lists.ports) flags.new }
{
    match linked.netlist().port_name(port) {
        Name::Original(number) => flags[number as usize] = true,
        Name::Added(_) => {}
    }
}
