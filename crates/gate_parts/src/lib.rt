// Parts of a chip, each a constant table of gates, and the call that adds one to a netlist.
// Contracts cite specs/Parts.antt for the cells of a table and specs/Appended.antt for what was added.
// Own: tables of gates in the terms of IEEE Std 1364-2001's gate level modelling.
//
// - `add_part` appends a net and a cell for each gate, in the order of the table, each cell on the net of its
//   place, with its kind, its operands in order and its number as name; the ports, nets and cells before stay; it
//   uses exactly as many spare nets and cells and can't refuse; it answers the first new net, and the last one's
//   number fits too.
// - `add_driver` appends one cell in the same way, on a net that is there and that nothing drives; other free nets
//   stay free.
// - What was appended is contained in the netlist, and in every netlist that only grows from it
//   (`appended_is_there`, `appended_grows`, `growth_keeps`). What is added twice is added as one
//   (`appended_more`). Free nets stay free where nothing that is added drives them, and where a part is added on
//   later nets (`free_net_stays`, `part_leaves_free_nets`).
// - By its place in the table each gate gives its net its value in a well-formed netlist that contains the part,
//   under any rule for pins (`contained_part_meets`), and is a flip-flop on its net where its kind is one
//   (`contained_part_has_flops`).
// - The net of a contained flip-flop has at a start the cleared or preset value where RN or SN is 0, else the one
//   that was given for that flip-flop; a step takes it to the next value (`flop_starts`, `flop_steps`).
// - A table of levels, checked by one computation, numbers the gates of a part so that each reads smaller numbers
//   (`levels_number`).
// By the contract of `add_part`, `add_driver` and its law functions.
#![tactic(auto)]

ghost use Rattle.std.specs.Prelude.{◌≡◌, ◌≢◌, ℕ, ◌+◌, ◌<◌, ◌≤◌, ◌^◌, [], ◌∷◌, length, IsTrue, Some};
ghost use Rattle.netlist_arena.specs.cell_library.Gates.{Takes};
ghost use Rattle.netlist_arena.specs.netlist_model.Lists.{cell_count};
ghost use Rattle.netlist_arena.specs.netlist_model.Contained.{IsDense};
ghost use Rattle.netlist_arena.specs.netlist_model.Below.{IsFeedBelow, AreFeedsBelow};
ghost use Rattle.netlist_arena.specs.Adds.{IsFree};
ghost use Rattle.gate_parts.specs.Parts.{feed_of, gate_cell, part_cells, is_sound_pin, is_sound_gate, is_sound};
ghost use Rattle.gate_parts.specs.Appended.{Appended};

mod laws;
pub mod lower_netlist_arena;

pub use laws::{
    appended_count, appended_grows, appended_is_there, appended_more, appended_none,
    contained_part_has_flops, contained_part_meets, flop_starts, flop_steps, free_net_stays,
    growth_keeps, levels_number, part_leaves_free_nets,
};
use netlist_arena::Netlist;
use netlist_arena::lower_cell_library::Kind;
use netlist_arena::lower_netlist_model::{Feed, Name, NetId};

/// What a gate of a table reads: the net of another gate of the table, or something that is handed in, by its place.
#[derive(Clone, Copy)]
pub enum Pin {
    Own(u8),
    Given(u8),
}

/// The operands of a gate in order.
#[derive(Clone, Copy)]
pub enum Pins {
    One(Pin),
    Two(Pin, Pin),
    Three(Pin, Pin, Pin),
    Four(Pin, Pin, Pin, Pin),
}

/// A gate of a table. It drives the net of its own place.
#[derive(Clone, Copy)]
pub struct Gate {
    pub kind: Kind,
    pub pins: Pins,
}

/// Adds the gates of a table to a dense netlist, each with the net that it drives, and answers the first of these nets.
/// The new nets and cells follow those that are there, in the order of the gates, under their numbers as names. Nets
/// that were free stay so.
pub fn add_part(netlist: &mut Netlist, gates: &[Gate], given: &[Feed]) -> NetId
    requires dense { IsDense netlist.old.lists }
    requires nets { length gates.now ≤ netlist.old.spare.nets }
    requires cells { length gates.now ≤ netlist.old.spare.cells }
    requires small { length gates.now ≤ 256 }
    requires sound { IsTrue (is_sound gates.now (length given.now)) }
    requires given { AreFeedsBelow (length netlist.old.lists.nets) given.now }
    ensures first { result.0 ≡ length netlist.old.lists.nets }
    ensures fits { result.0 + length gates.now < 2 ^ 32 }
    ensures added { Appended netlist.old netlist.new (length gates.now)
        (part_cells gates.now given.now (length netlist.old.lists.nets) (cell_count netlist.old.lists)) }
    ensures dense { IsDense netlist.new.lists }
{
    let count = gates.len() as u32;
    add_nets(netlist, count);
    let first = netlist.net_count() - count;
    for (k, gate) in gates.iter().enumerate() {
        add_gate(netlist, first, count, given, gate, NetId(first + k as u32));
    }
    NetId(first)
}

/// Adds one cell to a dense netlist, on a net that is there and that nothing drives, as an output's. The cell has its
/// number as name. Other nets that were free stay so.
pub fn add_driver(netlist: &mut Netlist, kind: Kind, feeds: &[Feed], output: NetId)
    requires dense { IsDense netlist.old.lists }
    requires cells { 0 < netlist.old.spare.cells }
    requires few { length feeds.now ≤ 4 }
    requires takes { Takes netlist.old.lists.library kind (length feeds.now) }
    requires feeds { AreFeedsBelow (length netlist.old.lists.nets) feeds.now }
    requires there { output.0 < length netlist.old.lists.nets }
    requires free { IsFree netlist.old.lists output.0 }
    ensures added { Appended netlist.old netlist.new 0 (record {
      kind = kind;
      name = Some (Name.Added (cell_count netlist.old.lists));
      feeds = feeds.now;
      output = Some output;
    } ∷ []) }
    ensures dense { IsDense netlist.new.lists }
    ensures free { (net : ℕ) → net ≢ output.0 → IsFree netlist.old.lists net
        → IsFree netlist.new.lists net }
{
    let name = next_cell_name(netlist);
    let _cell = netlist.add_cell(kind, Some(name), feeds, Some(output));
}

// Adds nets that no cell drives.
fn add_nets(netlist: &mut Netlist, count: u32)
    requires dense { IsDense netlist.old.lists }
    requires room { count ≤ netlist.old.spare.nets }
    ensures added { Appended netlist.old netlist.new count [] }
    ensures free { (net : ℕ) → length netlist.old.lists.nets ≤ net → net < length netlist.new.lists.nets
        → IsFree netlist.new.lists net }
{
    for _ in 0..count {
        let name = Name::Added(netlist.net_count());
        let _net = netlist.add_net(name, None);
    }
}

// Adds the cell of one gate, of a table of so many gates.
#[tactic(auto, using(crate::proofs::Steps::three_below, crate::proofs::Steps::four_below, crate::proofs::PinCounts::takes_by))]
fn add_gate(
    netlist: &mut Netlist,
    first: u32,
    count: u32,
    given: &[Feed],
    gate: &Gate,
    output: NetId,
)
    requires dense { IsDense netlist.old.lists }
    requires fits { first + count < 2 ^ 32 }
    requires cells { 0 < netlist.old.spare.cells }
    requires sound { IsTrue (is_sound_gate count (length given.now) gate.now) }
    requires own { first + count ≤ length netlist.old.lists.nets }
    requires given { AreFeedsBelow (length netlist.old.lists.nets) given.now }
    requires there { output.0 < length netlist.old.lists.nets }
    requires free { IsFree netlist.old.lists output.0 }
    ensures added { Appended netlist.old netlist.new 0
        (gate_cell first given.now (cell_count netlist.old.lists) output.0 gate.now ∷ []) }
    ensures dense { IsDense netlist.new.lists }
    ensures free { (net : ℕ) → net ≢ output.0 → IsFree netlist.old.lists net
        → IsFree netlist.new.lists net }
{
    match gate.pins {
        Pins::One(a) => {
            let feeds = [feed(first, count, given, a)];
            add_driver(netlist, gate.kind, &feeds, output);
        }
        Pins::Two(a, b) => {
            let feeds = [feed(first, count, given, a), feed(first, count, given, b)];
            add_driver(netlist, gate.kind, &feeds, output);
        }
        Pins::Three(a, b, c) => {
            let feeds = [
                feed(first, count, given, a),
                feed(first, count, given, b),
                feed(first, count, given, c),
            ];
            add_driver(netlist, gate.kind, &feeds, output);
        }
        Pins::Four(a, b, c, d) => {
            let feeds = [
                feed(first, count, given, a),
                feed(first, count, given, b),
                feed(first, count, given, c),
                feed(first, count, given, d),
            ];
            add_driver(netlist, gate.kind, &feeds, output);
        }
    }
}

// The operand of a pin.
fn feed(first: u32, count: u32, given: &[Feed], pin: Pin) -> Feed
    requires fits { first + count < 2 ^ 32 }
    requires sound { IsTrue (is_sound_pin count (length given.now) pin) }
    ensures value { result ≡ feed_of first given.now pin }
    ensures below { (nets : ℕ) → first + count ≤ nets → AreFeedsBelow nets given.now
        → IsFeedBelow nets result }
{
    match pin {
        Pin::Own(k) => Feed::Net(NetId(first + u32::from(k))),
        Pin::Given(k) => given[k as usize],
    }
}

// The name of the cell that is added next.
fn next_cell_name(netlist: &Netlist) -> Name
    ensures { result ≡ Name.Added (cell_count netlist.now.lists) }
{
    Name::Added(netlist.cell_count())
}
