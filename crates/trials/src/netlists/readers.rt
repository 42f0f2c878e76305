// The readers of a net, after a cell has gone and another has its number.
ghost use Rattle.std.specs.Prelude.{◌≡◌, IfSome, Some};
ghost use Rattle.netlist_arena.specs.Looks.{feed_at};

use cell_library::{Kind, Library};
use netlist_arena::Netlist;
use netlist_model::{CellId, Feed, Name, Reader};
use std::process::Abort;
use std::test::Fail;

// The operand at a place, if it is there.
pub(crate) fn operand(netlist: &Netlist, cell: CellId, place: u32) -> Option<Feed>
    ensures { IfSome result (λ feed. feed_at netlist.now.lists cell.0 place ≡ Some feed) }
{
    if netlist.is_live(cell) && place < netlist.feed_count(cell) {
        Some(netlist.feed(cell, place))
    } else {
        None
    }
}

// The reader after this one, if it is an operand that is a net.
fn following(netlist: &Netlist, reader: Option<Reader>) -> Option<Reader> {
    let reader = reader?;
    match operand(netlist, reader.cell, reader.place) {
        Some(Feed::Net(_)) => netlist.next_reader(reader),
        _ => None,
    }
}

fn reader(cell: u32, place: u32) -> Option<Reader> {
    Some(Reader {
        cell: CellId(cell),
        place,
    })
}

fn refill(rt: &impl Abort, netlist: &mut Netlist) -> Result<(), Fail> {
    netlist.reserve(4, 1, 0)?;
    let a = netlist.add_net(Name::Original(0), None);
    let _first = netlist.add_cell(Kind::Buf, None, &[Feed::Net(a)], None);
    let last = netlist.add_cell(Kind::Not, None, &[Feed::Net(a)], None);
    netlist.remove_cell(last);
    let again = netlist.add_cell(Kind::And, None, &[Feed::Net(a), Feed::Const(true)], None);
    let next = netlist.add_cell(Kind::Buf, None, &[Feed::Net(a)], None);
    assert_eq!(rt; again, CellId(1));
    assert_eq!(rt; next, CellId(2));
    assert_eq!(rt; netlist.cell_count(), 3);
    let newest = netlist.first_reader(a);
    assert_eq!(rt; newest, reader(2, 0));
    let second = following(netlist, newest);
    assert_eq!(rt; second, reader(1, 0));
    let oldest = following(netlist, second);
    assert_eq!(rt; oldest, reader(0, 0));
    assert_eq!(rt; following(netlist, oldest), None);
    Ok(())
}

#[test]
fn a_cell_takes_the_number_of_the_last_that_was_removed(rt: HostRuntime) -> Result<(), Fail> {
    let mut netlist = Netlist::new(rt.alloc(), Library::new(rt.alloc()));
    refill(&rt, &mut netlist)
}
