// Room and names, before anything is stitched.

ghost use Rattle.std.specs.Prelude.{◌≡◌, OnOk, IsOkUnless, MatchOption};
ghost use Rattle.netlist_arena.specs.Room.{too_many};
ghost use Rattle.scan_stitch.specs.Ready.{IsSmall, HasTapNames};
ghost use Rattle.written_netlists.specs.Prepared.{room_of, ports_of, with_tap_names, prepared};

use netlist_arena::ReserveFault;
use netlist_link::Linked;
use plan_fitting::Fitted;
use texts::OutOfMemory;

/// How many cells, and how many nets, are reserved for the test logic.
pub fn room(fitted: &Fitted) -> (u32, u32)
    requires { IsSmall fitted.now }
    ensures { result ≡ (room_of fitted.now, room_of fitted.now) }
{
    let count = 410 + 64 * fitted.codes.length + 24 * fitted.rows.len() as u32;
    (count, count)
}

// The ports of the device beside the netlist's: the test access port, and linkage.
fn port_room(fitted: &Fitted) -> u32
    requires { IsSmall fitted.now }
    ensures { result ≡ ports_of fitted.now }
{
    5 + fitted.linkage.len() as u32
}

/// Makes the room, and enters the names of the test access port, so that stitching takes no memory. The netlist stays
/// as it is, also after a refusal.
pub fn prepare(linked: &mut Linked, fitted: &Fitted) -> Result<(), ReserveFault>
    requires small { IsSmall fitted.now }
    requires names { HasTapNames fitted.now }
    ensures answer { MatchOption (too_many linked.old.arena.lists (room_of fitted.now)
        (room_of fitted.now) (ports_of fitted.now))
        (IsOkUnless result ReserveFault.OutOfMemory) (λ fault. result ≡ Err fault) }
    ensures ok { OnOk result (linked.new ≡ prepared fitted.now linked.old) }
    ensures lists { linked.new.arena.lists ≡ linked.old.arena.lists }
    ensures module_name { linked.new.module_name ≡ linked.old.module_name }
{
    let (cells, nets) = room(fitted);
    linked.reserve(cells, nets, port_room(fitted))?;
    match enter_names(linked, fitted) {
        Ok(()) => Ok(()),
        Err(_) => Err(ReserveFault::OutOfMemory),
    }
}

// Enters the names of the test access port.
fn enter_names(linked: &mut Linked, fitted: &Fitted) -> Result<(), OutOfMemory>
    requires names { HasTapNames fitted.now }
    ensures ok { OnOk result (linked.new ≡ record linked.old
        { names = with_tap_names fitted.now linked.old.names }) }
    ensures lists { linked.new.arena.lists ≡ linked.old.arena.lists }
    ensures module_name { linked.new.module_name ≡ linked.old.module_name }
{
    let _tck = linked.enter_name(fitted.tck.name.as_bytes())?;
    let _tms = linked.enter_name(fitted.tms.name.as_bytes())?;
    let _tdi = linked.enter_name(fitted.tdi.name.as_bytes())?;
    let _tdo = linked.enter_name(fitted.tdo.name.as_bytes())?;
    let _trst = linked.enter_name(fitted.trst.name.as_bytes())?;
    Ok(())
}
