// What the instruction in effect selects.

ghost use Rattle.std.specs.Prelude.{◌≡◌, ◌≤◌, length};
ghost use Rattle.netlist_model.specs.Lists.{cell_count};
ghost use Rattle.netlist_model.specs.Contained.{IsDense};
ghost use Rattle.netlist_model.specs.Below.{AreFeedsBelow};
ghost use Rattle.gate_parts.specs.Appended.{Appended};
ghost use Rattle.instruction_gates.specs.Selections.{selections_given, selections_cells, selection_nets};

use cell_library::Kind;
use gate_parts::{Gate, Pin, Pins, add_part};
use netlist_arena::Netlist;
use netlist_model::{Feed, NetId};
use test_logic::{InstrNets, ScanNets, TapNets};

/// What tells of each instruction whether its opcode is latched; 0 of one that has none. BYPASS isn't asked for: it is
/// in effect where no other is.
#[derive(Clone, Copy)]
pub struct Matched {
    pub extest: Feed,
    pub sample: Feed,
    pub preload: Feed,
    pub idcode: Feed,
    pub highz: Feed,
    pub clamp: Feed,
    pub usercode: Feed,
}

/// What is selected. Handed in are whether the opcodes of EXTEST, SAMPLE, PRELOAD, IDCODE, HIGHZ, CLAMP and USERCODE
/// are latched, and Capture-DR, Shift-DR and Update-DR.
pub const SELECTIONS: [Gate; 10] = [
    Gate {
        kind: Kind::Or,
        pins: Pins::Three(Pin::Given(0), Pin::Given(1), Pin::Given(2)),
    }, // 0: the boundary register
    Gate {
        kind: Kind::Nor,
        pins: Pins::Two(Pin::Own(0), Pin::Own(2)),
    }, // 1: the bypass register, where no other is
    Gate {
        kind: Kind::Or,
        pins: Pins::Two(Pin::Given(3), Pin::Given(6)),
    }, // 2: the identification register
    Gate {
        kind: Kind::Buf,
        pins: Pins::One(Pin::Given(0)),
    }, // 3: EXTEST
    Gate {
        kind: Kind::Or,
        pins: Pins::Three(Pin::Given(0), Pin::Given(5), Pin::Given(4)),
    }, // 4: update bits are taken
    Gate {
        kind: Kind::Buf,
        pins: Pins::One(Pin::Given(4)),
    }, // 5: outputs are inactive
    Gate {
        kind: Kind::And,
        pins: Pins::Two(Pin::Own(0), Pin::Given(7)),
    }, // 6: the boundary register captures
    Gate {
        kind: Kind::And,
        pins: Pins::Two(Pin::Own(0), Pin::Given(8)),
    }, // 7: it shifts
    Gate {
        kind: Kind::And,
        pins: Pins::Two(Pin::Own(0), Pin::Given(9)),
    }, // 8: it updates
    Gate {
        kind: Kind::Buf,
        pins: Pins::One(Pin::Given(6)),
    }, // 9: USERCODE
];

/// Adds to a dense netlist what the instruction in effect selects, and answers its nets, with the bit of the shift
/// stage nearest TDO. It takes 10 cells and nets of the room that is there; the nets of the opcode are those behind
/// them, for `add_copies`.
pub fn add_selections(
    netlist: &mut Netlist,
    tap: &TapNets,
    matched: &Matched,
    last: NetId,
) -> InstrNets
    requires dense { IsDense netlist.old.lists }
    requires nets { 10 ≤ netlist.old.spare.nets }
    requires cells { 10 ≤ netlist.old.spare.cells }
    requires given { AreFeedsBelow (length netlist.old.lists.nets)
        (selections_given tap.now matched.now) }
    ensures nets { result ≡ selection_nets (length netlist.old.lists.nets) tap.now last }
    ensures added { Appended netlist.old netlist.new 10
        (selections_cells (length netlist.old.lists.nets) (cell_count netlist.old.lists) tap.now matched.now) }
    ensures dense { IsDense netlist.new.lists }
{
    let given = [
        matched.extest,
        matched.sample,
        matched.preload,
        matched.idcode,
        matched.highz,
        matched.clamp,
        matched.usercode,
        Feed::Net(tap.capture_dr),
        Feed::Net(tap.shift_dr),
        Feed::Net(tap.update_dr),
    ];
    let NetId(first) = add_part(netlist, &SELECTIONS, &given);
    InstrNets {
        last,
        bypass_on: NetId(first + 1),
        ident_on: NetId(first + 2),
        user_on: NetId(first + 9),
        boundary_on: NetId(first),
        opcode: NetId(first + 10),
        scan: ScanNets {
            tck: tap.tck,
            trst: tap.trst,
            capture: NetId(first + 6),
            shift: NetId(first + 7),
            update: NetId(first + 8),
            extest: NetId(first + 3),
            m_out: NetId(first + 4),
            m_in: NetId(first + 4),
            hiz: NetId(first + 5),
        },
    }
}
