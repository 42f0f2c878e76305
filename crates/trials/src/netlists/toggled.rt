// A flip-flop that toggles, as its netlist settles, and in a run in which each event works out all cells.
ghost use Rattle.std.specs.Prelude.{◌≡◌, ◌<◌, ℕ, true, IfOk, IfSome, IsSome};
ghost use Rattle.netlist_model.specs.Cones.{IsControlPort};
ghost use Rattle.netlist_model.specs.Runs.{IsKnownPin};
ghost use Rattle.netlist_meaning.specs.Pins.{ArePinsOf, net_of, outside};
ghost use Rattle.netlist_meaning.specs.States.{IsStateOf};

use cell_library::Library;
use netlist_link::{Linked, link};
use netlist_meaning::{Event, Nets, Pins, Sim, State, settle};
use netlist_model::{NetId, PinBit, width_of};
use signal_values::{PinSig, Sig};
use std::alloc::Global;
use std::process::Abort;
use std::test::Fail;
use texts::{OutOfMemory, Text};
use verilog_texts::read_module;

const TOGGLE: &[u8] = b"module t(input ck, input rn, output q); wire d; not(d,q); \
DFFR f(.D(d),.CK(ck),.RN(rn),.Q(q)); endmodule";

// The flip-flop, with CK, RN and Q as ports.
fn toggle(alloc: Global) -> Result<Linked, Fail> {
    let text = Text::from_bytes(alloc, TOGGLE)?;
    let tree = read_module(alloc, text)?;
    Ok(link(alloc, &tree, Library::new(alloc))?)
}

// A state of the netlist, in which its one flip-flop holds this.
fn holding(alloc: Global, linked: &Linked, held: Sig) -> Result<State, OutOfMemory>
    ensures { IfOk result (IsStateOf linked.now) }
{
    let mut state = State::new(alloc, linked)?;
    if linked.flop_count() == 1 {
        state.set(0, held);
    }
    Ok(state)
}

// What q and d carry where the flip-flop holds this.
fn settled(alloc: Global, linked: &Linked, held: Sig) -> Result<[Sig; 2], OutOfMemory> {
    let pins = Pins::new(alloc, linked)?;
    let state = holding(alloc, linked, held)?;
    let mut nets = Nets::new(alloc, linked)?;
    settle(linked, &pins, &state, &mut nets);
    Ok([nets.value(NetId(2)), nets.value(NetId(3))])
}

// CK and RN are 0 at the start, so q is.
const EVENTS: [(&[u8], PinSig); 8] = [
    (b"ck", PinSig::One),
    (b"ck", PinSig::Zero),
    (b"rn", PinSig::One),
    (b"ck", PinSig::One),
    (b"ck", PinSig::Zero),
    (b"ck", PinSig::One),
    (b"ck", PinSig::Zero),
    (b"ck", PinSig::One),
];

// What q reads at the start and after each event.
const READINGS: [PinSig; 9] = [
    PinSig::Zero,
    PinSig::Zero,
    PinSig::Zero,
    PinSig::Zero,
    PinSig::One,
    PinSig::One,
    PinSig::Zero,
    PinSig::Zero,
    PinSig::One,
];

// The bit with this name.
fn bit(linked: &Linked, word: &[u8]) -> Option<PinBit>
    ensures { IfSome result (λ pin. IsSome (net_of linked.now.arena.lists.ports pin)) }
{
    let netlist = linked.netlist();
    netlist.is_laid_out();
    let pin = linked.find_pin(word)?;
    if pin.port.0 >= netlist.port_count() {
        return None;
    }
    if u64::from(pin.bit) >= width_of(netlist.port_range(pin.port)) {
        return None;
    }
    let _net = netlist.pin_net(pin);
    Some(pin)
}

// Steps by the event of this number, if it is legal.
fn step(linked: &Linked, sim: &mut Sim, number: usize) -> Option<()>
    requires number { number < 8 }
    requires started { sim.old.started ≡ true }
    ensures linked { sim.new.linked ≡ sim.old.linked }
    ensures started { sim.new.started ≡ true }
{
    let (word, value) = EVENTS[number];
    let pin = bit(linked, word)?;
    let event = Event { pin, value };
    if !sim.is_legal(event) {
        return None;
    }
    sim.apply(event);
    Some(())
}

// What q reads in a run, if each event is legal.
fn readings(linked: &Linked, sim: &mut Sim) -> Option<[PinSig; 9]>
    requires linked { sim.old.linked ≡ linked.now }
    requires started { sim.old.started ≡ true }
{
    let q = bit(linked, b"q")?;
    let mut readings = [sim.reading(q); 9];
    for number in 0..8 {
        step(linked, sim, number)?;
        readings[number + 1] = sim.reading(q);
    }
    Some(readings)
}

// The pins at first, where CK and RN are 0.
fn pins_at_first(alloc: Global, linked: &Linked) -> Result<Pins, OutOfMemory>
    ensures pins { IfOk result (ArePinsOf linked.now.arena.lists) }
    ensures known { IfOk result (λ pins. (net : ℕ) → IsControlPort linked.now.arena.lists net
        → IsKnownPin (outside pins net)) }
{
    Pins::new(alloc, linked)
}

// Plays the events from these pins and contents.
fn look_at_readings(
    rt: &impl Abort,
    alloc: Global,
    linked: &Linked,
    pins: &Pins,
    state: &State,
) -> Result<(), Fail>
    requires pins { ArePinsOf linked.now.arena.lists pins.now }
    requires known { (net : ℕ) → IsControlPort linked.now.arena.lists net
        → IsKnownPin (outside pins.now net) }
    requires state { IsStateOf linked.now state.now }
{
    let mut sim = Sim::new(alloc, linked)?;
    sim.start(pins, state);
    assert!(rt; readings(linked, &mut sim) == Some(READINGS));
    Ok(())
}

fn look_at_run(rt: &impl Abort, alloc: Global, linked: &Linked) -> Result<(), Fail> {
    let pins = pins_at_first(alloc, linked)?;
    let state = State::new(alloc, linked)?;
    look_at_readings(rt, alloc, linked, &pins, &state)
}

#[test]
fn a_toggle_settles_and_reads_as_worked_out(rt: HostRuntime) -> Result<(), Fail> {
    let linked = toggle(rt.alloc())?;
    assert!(rt; settled(rt.alloc(), &linked, Sig::One)? == [Sig::One, Sig::Zero]);
    assert!(rt; settled(rt.alloc(), &linked, Sig::Unknown)? == [Sig::Unknown, Sig::Unknown]);
    look_at_run(&rt, rt.alloc(), &linked)
}
