// Registers, in a netlist that is open to them.

ghost use Rattle.std.specs.Prelude.{◌≡◌, ℕ, ◌+◌, ◌<◌, ◌≤◌, List, length, All, IsSome};
ghost use Rattle.netlist_model.specs.Lists.{IsDrivenOnce};
ghost use Rattle.netlist_model.specs.Contained.{IsDense};
ghost use Rattle.netlist_model.specs.Formed.{IsLaidOut, IsWellFormed};
ghost use Rattle.netlist_arena.specs.Looks.{feed_at};
ghost use Rattle.netlist_link.specs.WellNamed.{IsWellNamed};
ghost use Rattle.gate_parts.specs.Appended.{Appended};
ghost use Rattle.status_gates.specs.Registers.{registers_size};
ghost use Rattle.status_build.specs.OrderLaws.{IsProper};
ghost use Rattle.status_build.specs.Build.{IsOpenTo, CanRead, added_cells, shown_at};
ghost use Rattle.status_build.specs.BuildLaws.{CanAdd, IsBuiltOn};

use crate::build::{status_is_formed, status_is_named};
use gate_parts::{appended_count, appended_grows};
use netlist_arena::Netlist;
use netlist_model::laws::numbers_of_a_dense_netlist;
use netlist_model::{CellId, Feed, NetId};
use register_gates::{added_in_turn, constants_are_bits};
use status_fitting::FittedRegister;
use status_gates::add_inverses;
use status_gates::parts::{SharedNets, add_registers};

// Adds the inverses and the registers, and answers the net that they show.
fn add_status(
    netlist: &mut Netlist,
    shared: &SharedNets,
    bypass: NetId,
    bits: u32,
    registers: &[FittedRegister],
) -> NetId
    requires dense { IsDense netlist.old.lists }
    requires can { CanAdd (length netlist.old.lists.nets) shared.now bypass bits registers.now }
    requires nets { bits + registers_size registers.now ≤ netlist.old.spare.nets }
    requires cells { bits + registers_size registers.now ≤ netlist.old.spare.cells }
    ensures shown { result ≡ shown_at netlist.old.lists bypass bits registers.now }
    ensures added { Appended netlist.old netlist.new (bits + registers_size registers.now)
        (added_cells netlist.old.lists shared.now bypass bits registers.now) }
    ensures laid_out { IsLaidOut netlist.old.lists }
    ensures driven_once { IsDrivenOnce netlist.new.lists }
{
    appended_count();
    added_in_turn();
    constants_are_bits();
    netlist.is_laid_out();
    add_inverses(netlist, shared.opcode, bits);
    let shown = add_registers(netlist, shared, bypass, registers);
    netlist.is_laid_out();
    shown
}

/// Builds registers into a dense netlist, behind its cells, with an instruction register of so many bits: the gate
/// `through` reads what they show. It takes no memory, and for n bits, r registers and b wires n + r (n + 3) + 3 b cells
/// and nets at most.
pub fn build_registers(
    netlist: &mut Netlist,
    shared: &SharedNets,
    bypass: NetId,
    bits: u32,
    through: CellId,
    registers: &[FittedRegister],
)
    requires dense { IsDense netlist.old.lists }
    requires can { CanAdd (length netlist.old.lists.nets) shared.now bypass bits registers.now }
    requires gate { IsSome (feed_at netlist.old.lists through.0 0) }
    requires nets { bits + registers_size registers.now ≤ netlist.old.spare.nets }
    requires cells { bits + registers_size registers.now ≤ netlist.old.spare.cells }
    ensures built { IsBuiltOn netlist.old.lists netlist.new.lists shared.now bypass bits through.0 registers.now }
    // Where the netlist is open to them, it stays well formed and well named.
    ensures formed { IsWellFormed netlist.old.lists → IsOpenTo netlist.old.lists shared.now bypass bits through.0
        → 0 < length registers.now → All (IsProper bits) registers.now → All (CanRead netlist.old.lists) registers.now
        → IsWellFormed netlist.new.lists }
    ensures named { (table : List (List ℕ)) → IsWellNamed table netlist.old.lists
        → IsOpenTo netlist.old.lists shared.now bypass bits through.0 → IsWellNamed table netlist.new.lists }
{
    appended_count();
    appended_grows();
    constants_are_bits();
    numbers_of_a_dense_netlist();
    status_is_formed();
    status_is_named();
    let shown = add_status(netlist, shared, bypass, bits, registers);
    netlist.connect(through, 0, Feed::Net(shown));
}
