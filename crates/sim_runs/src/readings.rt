// Readings on the sink.

ghost use Rattle.std.specs.Prelude.{◌≡◌, ◌<◌, ◌≤◌, ℕ, true, take, length, Option, OnErr, OnOk};
ghost use Rattle.edge_io.specs.Shelf.{Rose, appended};
ghost use Rattle.output_lines.specs.Puts.{Puts};
ghost use Rattle.signal_values.specs.declared.PinSig.{PinSig};
ghost use Rattle.netlist_meaning.specs.Sims.{moment_of};
ghost use Rattle.netlist_model.specs.Runs.{Moment};
ghost use Rattle.sim_runs.specs.Bits.{HavePins, IsToldBefore, bits_text, told_at, told_line, told_of};
ghost use Rattle.sim_runs.specs.Outputs.{changed_line, reading_line};

use crate::label::label;
use crate::shown::Shown;
use edge_io::sink::Sink;
use edge_io::whole::WriteFault;
use event_sim::EventSim;
use netlist_link::Linked;
use netlist_model::NetId;
use output_lines::{Field, put_line};
use signal_values::{PinSig, show};

/// Puts what the bits read, but for those of which just this was told last; and notes what was told.
pub fn put_readings<O: Sink>(
    out: &mut O,
    linked: &Linked,
    sim: &EventSim,
    bits: &[Shown],
    told: &mut [Option<PinSig>],
) -> Result<(), WriteFault>
    requires linked { sim.now.linked ≡ linked.now }
    requires started { sim.now.started ≡ true }
    requires bits { HavePins linked.now.arena.lists bits.now }
    requires room { length told.old ≡ length bits.now }
    ensures ok { OnOk result ((last : ℕ → Option PinSig) → told.old ≡ told_of last bits.now
        → O.given out.new ≡ appended (bits_text linked.now last (moment_of sim.now.moment) bits.now)
        (O.given out.old)) }
    ensures fault { OnErr result ((last : ℕ → Option PinSig) → told.old ≡ told_of last bits.now
        → (k : ℕ) × (O.given out.new ≡ appended (take k
        (bits_text linked.now last (moment_of sim.now.moment) bits.now)) (O.given out.old))) }
    ensures told { OnOk result (told.new ≡ told_of
        (told_at linked.now.arena.lists (moment_of sim.now.moment)) bits.now) }
    ensures cause { OnErr result (Rose (O.faults out.old) (O.faults out.new)) }
    ensures later { O.faults out.old ≤ O.faults out.new }
{
    linked.netlist().is_laid_out();
    for (place, bit) in bits.iter().enumerate() {
        let last = told[place];
        let reading = sim.reading(bit.pin);
        told[place] = Some(reading);
        let Ok(()) = put_told(out, linked, bit.net, last, reading) else {
            return Err(WriteFault);
        };
    }
    Ok(())
}

/// Puts what changed of the bits that may read anew, in their order; and notes what was told.
pub fn put_changes<O: Sink>(
    out: &mut O,
    linked: &Linked,
    sim: &mut EventSim,
    bits: &[Shown],
    told: &mut [Option<PinSig>],
) -> Result<(), WriteFault>
    requires linked { sim.old.linked ≡ linked.now }
    requires started { sim.old.started ≡ true }
    requires bits { HavePins linked.now.arena.lists bits.now }
    requires room { length told.old ≡ length bits.now }
    ensures linked { sim.new.linked ≡ linked.now }
    ensures started { sim.new.started ≡ true }
    ensures moment { sim.new.moment ≡ sim.old.moment }
    ensures ok { OnOk result ((before : Moment) → IsToldBefore linked.now.arena.lists before
        (moment_of sim.old.moment) bits.now told.old sim.old.changed
        → O.given out.new ≡ appended (bits_text linked.now (told_at linked.now.arena.lists before)
        (moment_of sim.old.moment) bits.now) (O.given out.old)) }
    ensures fault { OnErr result ((before : Moment) → IsToldBefore linked.now.arena.lists before
        (moment_of sim.old.moment) bits.now told.old sim.old.changed
        → (k : ℕ) × (O.given out.new ≡ appended (take k (bits_text linked.now
        (told_at linked.now.arena.lists before) (moment_of sim.old.moment) bits.now)) (O.given out.old))) }
    ensures told { OnOk result ((before : Moment) → IsToldBefore linked.now.arena.lists before
        (moment_of sim.old.moment) bits.now told.old sim.old.changed
        → told.new ≡ told_of (told_at linked.now.arena.lists (moment_of sim.old.moment)) bits.now) }
    ensures cause { OnErr result (Rose (O.faults out.old) (O.faults out.new)) }
    ensures later { O.faults out.old ≤ O.faults out.new }
{
    linked.netlist().is_laid_out();
    for _passed in 0..bits.len() {
        let Some(place) = sim.take_changed() else {
            return Ok(());
        };
        if place >= bits.len() {
            return Ok(());
        }
        let bit = bits[place];
        let last = told[place];
        let now = sim.reading(bit.pin);
        told[place] = Some(now);
        let Ok(()) = put_told(out, linked, bit.net, last, now) else {
            return Err(WriteFault);
        };
    }
    Ok(())
}

// Puts a reading, unless it was told last.
fn put_told<O: Sink>(
    out: &mut O,
    linked: &Linked,
    net: NetId,
    last: Option<PinSig>,
    reading: PinSig,
) -> Result<(), WriteFault>
    requires { net.0 < length linked.now.arena.lists.nets }
    ensures { Puts O.given O.faults out.old out.new (told_line linked.now net last reading) result }
{
    match last {
        None => put_reading(out, linked, net, reading),
        Some(last) => put_changed(out, linked, net, last, reading),
    }
}

// Puts a reading that is another than the last.
fn put_changed<O: Sink>(
    out: &mut O,
    linked: &Linked,
    net: NetId,
    last: PinSig,
    reading: PinSig,
) -> Result<(), WriteFault>
    requires { net.0 < length linked.now.arena.lists.nets }
    ensures { Puts O.given O.faults out.old out.new (changed_line linked.now net last reading) result }
{
    if show(last) == show(reading) {
        return Ok(());
    }
    put_reading(out, linked, net, reading)
}

// Puts a bit and its reading.
fn put_reading<O: Sink>(
    out: &mut O,
    linked: &Linked,
    net: NetId,
    reading: PinSig,
) -> Result<(), WriteFault>
    requires { net.0 < length linked.now.arena.lists.nets }
    ensures { Puts O.given O.faults out.old out.new (reading_line linked.now net reading) result }
{
    let value = [show(reading)];
    put_line(out, &label(linked, net), &[Field::Word(&value)])
}
