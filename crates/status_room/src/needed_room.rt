// Room and names, before anything is built in.

ghost use Rattle.std.specs.Prelude.{◌≡◌, ◌+◌, ◌*◌, ◌≤◌, length, All, OnOk, IsOkUnless, MatchOption};
ghost use Rattle.netlist_arena.specs.Room.{too_many};
ghost use Rattle.scan_stitch.specs.written_netlists.Prepared.{room_of, ports_of};
ghost use Rattle.scan_stitch.specs.Ready.{IsSmall, HasTapNames};
ghost use Rattle.status_room.specs.Ready as model;
ghost use Rattle.status_room.specs.Prepared.{prepared_with, prepared_status};

use netlist_arena::ReserveFault;
use netlist_link::Linked;
use plan_fitting::Fitted;
use scan_stitch::{prepare, room};
use status_fitting::{FittedRegister, FittedStatus};

// The room for one register.
fn register_room(register: &FittedRegister) -> u32
    requires { model.HasFewWires register.now }
    ensures room { result ≡ 48 + 4 * length register.now.nets }
    ensures few { result ≤ 1072 }
{
    48 + 4 * register.nets.len() as u32
}

/// How many cells, and how many nets, are reserved for registers.
pub fn status_room(registers: &[FittedRegister]) -> u32
    requires many { length registers.now ≤ 16 }
    requires few { All model.HasFewWires registers.now }
    ensures room { result ≡ model.status_room registers.now }
    ensures few { result ≤ 17216 }
{
    let mut count = 64;
    for register in registers {
        count += register_room(register);
    }
    count
}

// The ports of the device beside the netlist's.
fn ports_beside(fitted: &Fitted) -> u32
    requires { IsSmall fitted.now }
    ensures { result ≡ ports_of fitted.now }
{
    5 + fitted.linkage.len() as u32
}

// Makes the room for the test logic and so many cells and nets more, and enters the names of the test access port.
fn prepare_with(linked: &mut Linked, fitted: &Fitted, more: u32) -> Result<(), ReserveFault>
    requires small { IsSmall fitted.now }
    requires names { HasTapNames fitted.now }
    requires few { more ≤ 17216 }
    ensures answer { MatchOption (too_many linked.old.arena.lists (room_of fitted.now + more)
        (room_of fitted.now + more) (ports_of fitted.now))
        (IsOkUnless result ReserveFault.OutOfMemory) (λ fault. result ≡ Err fault) }
    ensures ok { OnOk result (linked.new ≡ prepared_with fitted.now more linked.old) }
    ensures lists { linked.new.arena.lists ≡ linked.old.arena.lists }
    ensures module_name { linked.new.module_name ≡ linked.old.module_name }
{
    let (cells, _nets) = room(fitted);
    let all = cells + more;
    linked.reserve(all, all, ports_beside(fitted))?;
    prepare(linked, fitted)
}

/// Makes the room, and enters the names of the test access port, so that building in takes no memory. The netlist stays
/// as it is, also after a refusal.
pub fn prepare_status(
    linked: &mut Linked,
    fitted: &Fitted,
    status: &FittedStatus,
) -> Result<(), ReserveFault>
    requires small { IsSmall fitted.now }
    requires names { HasTapNames fitted.now }
    requires many { length status.now.registers ≤ 16 }
    requires few { All model.HasFewWires status.now.registers }
    ensures answer { MatchOption (too_many linked.old.arena.lists (model.whole_room fitted.now status.now.registers)
        (model.whole_room fitted.now status.now.registers) (ports_of fitted.now))
        (IsOkUnless result ReserveFault.OutOfMemory) (λ fault. result ≡ Err fault) }
    ensures ok { OnOk result (linked.new ≡ prepared_status fitted.now status.now.registers linked.old) }
    ensures lists { linked.new.arena.lists ≡ linked.old.arena.lists }
    ensures module_name { linked.new.module_name ≡ linked.old.module_name }
{
    let more = status_room(status.registers.as_slice());
    prepare_with(linked, fitted, more)
}
