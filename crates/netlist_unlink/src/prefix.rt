// Whether bytes can begin the names of added nets and cells.
ghost use Rattle.std.specs.Prelude.{◌≡◌, ◌↔◌, ◌<◌, IsTrue, length};
ghost use Rattle.std.specs.List.{list_all};
ghost use Rattle.netlist_model.specs.Lists.{cell_at};
ghost use Rattle.netlist_arena.specs.Looks.{IsLive};
ghost use Rattle.netlist_link.specs.WellNamed.{IsKnown};
ghost use Rattle.netlist_unlink.specs.FreeNames as named;
ghost use Rattle.netlist_unlink.specs.FreeNames.{is_word_byte};
ghost use Rattle.netlist_unlink.specs.Prefixes.{IsFreePrefix};

use crate::tree::is_linked;
use netlist_link::Linked;
use netlist_model::{CellId, Name, NetId, PortId};
use verilog_lexicon::keywords::is_letter;

/// Whether the bytes can begin the names of added nets and cells: a letter or `_`, then letters, digits and `_`, 1 to
/// 32 in all, with which no original name of a port, net or cell begins. Time is linear in the netlist.
pub fn is_free_prefix(linked: &Linked, prefix: &[u8]) -> bool
    ensures { IsTrue result ↔ IsFreePrefix linked.now prefix.now }
{
    let free = is_free(linked, prefix);
    is_linked(linked);
    free
}

fn is_free(linked: &Linked, prefix: &[u8]) -> bool
    ensures { result ≡ named.is_free_prefix linked.now prefix.now }
{
    is_prefix(prefix)
        && (ports_are_free(linked, prefix)
            && (nets_are_free(linked, prefix) && cells_are_free(linked, prefix)))
}

fn is_prefix(bytes: &[u8]) -> bool
    ensures { result ≡ named.is_prefix bytes.now }
{
    match bytes {
        [] => false,
        [first, rest @ ..] => bytes.len() <= 32 && (is_letter(*first) && are_word_bytes(rest)),
    }
}

fn are_word_bytes(bytes: &[u8]) -> bool
    ensures { result ≡ list_all is_word_byte bytes.now }
{
    bytes.iter().all(|byte| is_letter(*byte) || (b'0' <= *byte && *byte <= b'9'))
}

fn ports_are_free(linked: &Linked, prefix: &[u8]) -> bool
    ensures { result ≡ named.ports_are_free linked.now.names prefix.now linked.now.arena.lists.ports }
{
    let netlist = linked.netlist();
    for number in 0..netlist.port_count() {
        if !is_free_name(linked, prefix, netlist.port_name(PortId(number))) {
            return false;
        }
    }
    true
}

fn nets_are_free(linked: &Linked, prefix: &[u8]) -> bool
    ensures { result ≡ named.nets_are_free linked.now.names prefix.now linked.now.arena.lists.nets }
{
    let netlist = linked.netlist();
    for number in 0..netlist.net_count() {
        if !is_free_name(linked, prefix, netlist.net_name(NetId(number))) {
            return false;
        }
    }
    true
}

fn cells_are_free(linked: &Linked, prefix: &[u8]) -> bool
    ensures { result ≡ named.cells_are_free linked.now prefix.now linked.now.order }
{
    is_linked(linked);
    for cell in linked.order() {
        if !is_free_cell(linked, prefix, *cell) {
            return false;
        }
    }
    true
}

fn is_free_cell(linked: &Linked, prefix: &[u8], cell: CellId) -> bool
    requires { IsLive linked.now.arena.lists cell.0 }
    ensures { result ≡ named.is_free_cell linked.now.names prefix.now
        (cell_at linked.now.arena.lists cell.0) }
{
    match linked.netlist().cell_name(cell) {
        Some(name) => is_free_name(linked, prefix, name),
        None => true,
    }
}

fn is_free_name(linked: &Linked, prefix: &[u8], name: Name) -> bool
    requires { IsKnown linked.now.names name }
    ensures { result ≡ named.is_free_name linked.now.names prefix.now name }
{
    match name {
        Name::Original(_) => !linked.name_text(name).starts_with(prefix),
        Name::Added(_) => true,
    }
}
