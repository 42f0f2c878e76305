ghost use Rattle.std.specs.Prelude.{◌≡◌, ℕ, ◌<◌, ◌^◌, IfOk, length, slice_set};
ghost use Rattle.cell_library.specs.Gates.{is_three_state};
ghost use Rattle.netlist_model.specs.Below.{AreFeedsBelow};
ghost use Rattle.link_model.specs.Fits.{CellsBelow, IsCellBelow};
ghost use Rattle.link_rules.specs.Uses.{uses_at, uses_among, driven, with_output, with_feeds};

use cell_library::Kind;
use link_model::ItemCell;
use netlist_model::{Feed, NetId};
use std::alloc::Global;
use texts::OutOfMemory;

/// How the cells use a net.
#[derive(Clone, Copy)]
pub struct NetUses {
    /// How many cells drive it.
    pub drivers: usize,
    /// Whether a three-state gate drives it.
    pub by_bufif: bool,
    /// Whether a cell reads it.
    pub read: bool,
}

/// How the cells use each of so many nets.
pub fn uses_of_nets(
    alloc: Global,
    nets: usize,
    cells: &[ItemCell],
) -> Result<Vec<NetUses>, OutOfMemory>
    requires { CellsBelow nets cells.now }
    ensures length { IfOk result (λ uses. length uses.items ≡ nets) }
    ensures each { IfOk result (λ uses. (net : ℕ) → net < nets
        → uses_at uses.items net ≡ uses_among cells.now net) }
{
    let unused = NetUses {
        drivers: 0,
        by_bufif: false,
        read: false,
    };
    let mut uses = vec![in alloc; unused; nets]?;
    for cell in cells {
        note_output(uses.as_mut_slice(), cell);
        note_feeds(uses.as_mut_slice(), cell.feeds());
    }
    Ok(uses)
}

// Notes what the cell drives.
fn note_output(uses: &mut [NetUses], cell: &ItemCell)
    requires fits { IsCellBelow (length uses.old) cell.now }
    requires few { (net : ℕ) → net < length uses.old → (uses_at uses.old net).drivers < 2 ^ 63 }
    ensures { (net : ℕ) → net < length uses.old
        → uses_at uses.new net ≡ with_output net cell.now (uses_at uses.old net) }
{
    match cell.output() {
        Some(net) => note_driver(uses, net, is_bufif(cell.kind())),
        None => {}
    }
}

// Notes one more driver.
fn note_driver(uses: &mut [NetUses], net: NetId, bufif: bool)
    requires there { net.0 < length uses.old }
    requires few { (uses_at uses.old net.0).drivers < 2 ^ 63 }
    ensures { uses.new ≡ slice_set uses.old net.0 (driven bufif (uses_at uses.old net.0)) }
{
    let here = uses[net.0 as usize];
    uses[net.0 as usize] = NetUses {
        drivers: here.drivers + 1,
        by_bufif: here.by_bufif || bufif,
        read: here.read,
    };
}

// Notes the nets that a cell reads.
fn note_feeds(uses: &mut [NetUses], feeds: &[Feed])
    requires { AreFeedsBelow (length uses.old) feeds.now }
    ensures { (net : ℕ) → net < length uses.old
        → uses_at uses.new net ≡ with_feeds net feeds.now (uses_at uses.old net) }
{
    for feed in feeds {
        match *feed {
            Feed::Net(net) => uses[net.0 as usize].read = true,
            Feed::Const(_) => {}
        }
    }
}

fn is_bufif(kind: Kind) -> bool
    ensures { result ≡ is_three_state kind }
{
    matches!(kind, Kind::Bufif0 | Kind::Bufif1)
}
