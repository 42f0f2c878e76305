// A netlist in the room that was reserved, and a copy of it.
use crate::netlists::readers::operand;
use cell_library::{Kind, Library};
use netlist_arena::Netlist;
use netlist_model::{Dir, Feed, Name};
use std::alloc::Global;
use std::process::Abort;
use std::test::Fail;

fn place_wide(rt: &impl Abort, alloc: Global, netlist: &mut Netlist) -> Result<(), Fail> {
    netlist.reserve(3, 4, 1)?;
    let a = netlist.add_net(Name::Original(0), None);
    let b = netlist.add_net(Name::Original(1), None);
    let feeds = [
        Feed::Net(a),
        Feed::Net(b),
        Feed::Const(true),
        Feed::Net(a),
        Feed::Net(b),
    ];
    let wide = netlist.add_wide_cell(Kind::Nor, None, &feeds, None)?;
    let _port = netlist.add_port(Name::Original(0), Dir::Input, None, &[a])?;
    let copy = netlist.copy(alloc)?;
    assert_eq!(rt; copy.cell_count(), 1);
    assert_eq!(rt; copy.pin_count(), 1);
    assert_eq!(rt; operand(&copy, wide, 2), Some(Feed::Const(true)));
    assert_eq!(rt; operand(&copy, wide, 4), Some(Feed::Net(b)));
    assert_eq!(rt; operand(&copy, wide, 5), None);
    Ok(())
}

#[test]
fn a_copy_has_the_operands_of_a_wide_cell(rt: HostRuntime) -> Result<(), Fail> {
    let mut netlist = Netlist::new(rt.alloc(), Library::new(rt.alloc()));
    place_wide(&rt, rt.alloc(), &mut netlist)
}
