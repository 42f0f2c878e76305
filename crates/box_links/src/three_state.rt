// Three-state gates at hidden outputs.
ghost use Rattle.std.specs.Prelude.{◌≡◌, ◌+◌, ◌<◌, ◌≤◌, [], IfOk, IfSome, Some, length, position, slice_get};
ghost use Rattle.std.specs.Option.{option_map};
ghost use Rattle.cell_library.specs.Gates as gates;
ghost use Rattle.netlist_model.specs.Lists.{cell_at};
ghost use Rattle.box_links.specs.ThreeState.{FlagsGates, IsOutput, IsPortNet, first_hidden, flag_at, has_gate, net_bit, output_bit, with_gate};

use cell_library::Kind;
use link_model::BitName;
use netlist_arena::Netlist;
use netlist_link::Linked;
use netlist_model::{CellId, Dir, NetId, PortId};
use std::alloc::Global;
use texts::{OutOfMemory, Text};

fn is_three_state(kind: Kind) -> bool
    ensures { result ≡ gates.is_three_state kind }
{
    matches!(kind, Kind::Bufif0 | Kind::Bufif1)
}

// Flags the net that has this number's cell as its driver, if that is a three-state gate.
fn flag_gate(flags: &mut [bool], netlist: &Netlist, cell: CellId)
    requires { length flags.old ≡ length netlist.now.lists.nets }
    ensures { flags.new ≡ with_gate (cell_at netlist.now.lists cell.0) flags.old }
{
    if !netlist.is_live(cell) {
        return;
    }
    if is_three_state(netlist.kind(cell)) {
        if let Some(net) = netlist.output(cell) {
            flags[net.0 as usize] = true;
        }
    }
}

// Flags each net that a three-state gate drives.
fn flag_gates(flags: &mut [bool], netlist: &Netlist)
    requires { FlagsGates netlist.now.lists [] flags.old }
    ensures { FlagsGates netlist.now.lists netlist.now.lists.cells flags.new }
{
    // Asked so that the proof knows that what cells drive is there.
    netlist.is_laid_out();
    for number in 0..netlist.cell_bound() {
        flag_gate(flags, netlist, CellId(number));
    }
}

// Of each net, whether a three-state gate drives it.
fn three_state_nets(alloc: Global, netlist: &Netlist) -> Result<Vec<bool>, OutOfMemory>
    ensures { IfOk result (λ flags. FlagsGates netlist.now.lists netlist.now.lists.cells flags.items) }
{
    let mut flags = vec![in alloc; false; netlist.net_count() as usize]?;
    flag_gates(flags.as_mut_slice(), netlist);
    Ok(flags)
}

fn is_flagged(flags: &[bool], net: NetId) -> bool
    ensures { result ≡ flag_at flags.now net.0 }
{
    match flags.get(net.0 as usize) {
        Some(flag) => *flag,
        None => false,
    }
}

// The name of a net, and its index there.
fn name_of_net(alloc: Global, linked: &Linked, net: NetId) -> Result<BitName, OutOfMemory>
    requires { IsPortNet linked.now net.0 }
    ensures { IfOk result (λ bit. option_map (net_bit linked.now.names) (slice_get linked.now.arena.lists.nets net.0) ≡ Some bit) }
{
    let netlist = linked.netlist();
    let name = linked.name_text(netlist.net_name(net));
    Ok(BitName {
        name: Text::from_bytes(alloc, name)?,
        index: netlist.net_index(net),
    })
}

// The place of the first flagged net.
fn find_flagged(nets: &[NetId], flags: &[bool]) -> Option<usize>
    ensures found { result ≡ position (λ net. flag_at flags.now net.0) nets.now }
    ensures within { IfSome result (λ bit. bit < length nets.now) }
{
    nets.iter().position(|net| is_flagged(flags, *net))
}

// The first flagged bit of an output.
fn flagged_output(
    alloc: Global,
    linked: &Linked,
    flags: &[bool],
    port: PortId,
) -> Result<Option<BitName>, OutOfMemory>
    requires { IsOutput linked.now port.0 }
    ensures { IfOk result (λ bit. option_map (output_bit linked.now.names (flag_at flags.now)) (slice_get linked.now.arena.lists.ports port.0)
        ≡ Some bit) }
{
    let nets = linked.netlist().port_nets(alloc, port)?;
    match find_flagged(&nets, flags) {
        Some(bit) => Ok(Some(name_of_net(alloc, linked, nets[bit])?)),
        None => Ok(None),
    }
}

// The first flagged bit of a port, if it is an output.
fn flagged_bit(
    alloc: Global,
    linked: &Linked,
    flags: &[bool],
    port: PortId,
) -> Result<Option<BitName>, OutOfMemory>
    requires { port.0 < length linked.now.arena.lists.ports }
    ensures { IfOk result (λ bit. option_map (output_bit linked.now.names (flag_at flags.now)) (slice_get linked.now.arena.lists.ports port.0)
        ≡ Some bit) }
{
    match linked.netlist().port_dir(port) {
        Dir::Output => flagged_output(alloc, linked, flags, port),
        Dir::Input | Dir::Inout => Ok(None),
    }
}

// The first flagged bit of a hidden output.
fn flagged_hidden(
    alloc: Global,
    linked: &Linked,
    flags: &[bool],
) -> Result<Option<BitName>, OutOfMemory>
    requires { linked.now.straight.first + linked.now.straight.count ≤ length linked.now.arena.lists.ports }
    ensures { IfOk result (λ bit. bit ≡ first_hidden linked.now (flag_at flags.now)) }
{
    // Asked so that the proof knows that the numbers of ports fit.
    let _ports = linked.netlist().port_count();
    let straight = linked.straight();
    for place in 0..straight.count {
        let port = PortId(straight.first + place);
        match flagged_bit(alloc, linked, flags, port)? {
            Some(bit) => return Ok(Some(bit)),
            None => {}
        }
    }
    Ok(None)
}

/// The first bit of a hidden output that a three-state gate drives.
pub(crate) fn find_three_state(
    alloc: Global,
    linked: &Linked,
) -> Result<Option<BitName>, OutOfMemory>
    requires { linked.now.straight.first + linked.now.straight.count ≤ length linked.now.arena.lists.ports }
    ensures { IfOk result (λ bit. bit ≡ first_hidden linked.now (has_gate linked.now.arena.lists.cells)) }
{
    if linked.straight().count == 0 {
        return Ok(None);
    }
    let flags = three_state_nets(alloc, linked.netlist())?;
    flagged_hidden(alloc, linked, flags.as_slice())
}
