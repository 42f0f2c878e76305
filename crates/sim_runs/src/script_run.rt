// Plays a script, line after line.

ghost use Rattle.std.specs.Prelude.{◌≡◌, ◌≤◌, ◌+◌, ◌<◌, ◌^◌, ℕ, List, [], true, length, take, IfOk, IsErrOf, IsSome, OnErr, OnOk};
ghost use Rattle.edge_io.specs.Shelf.{Rose, appended};
ghost use Rattle.output_lines.specs.Puts.{Puts};
ghost use Rattle.netlist_model.specs.Formed.{IsWellFormed};
ghost use Rattle.netlist_model.specs.Runs.{Moment, reading_at};
ghost use Rattle.netlist_model.specs.LawsRuns.{SameMoment};
ghost use Rattle.scan_vectors.specs.Grammar.{pin_of};
ghost use Rattle.scan_vectors.specs.Scripts.{IsPlayable, IsResolved};
ghost use Rattle.netlist_meaning.specs.Events.{IsLegalEvent, IsEventStep};
ghost use Rattle.netlist_meaning.specs.Pins.{net_of};
ghost use Rattle.netlist_meaning.specs.Sims.{moment_of};
ghost use Rattle.sim_runs.specs.Bits.{AreBits, told_at, told_of, untold};
ghost use Rattle.sim_runs.specs.Outputs.{IsOutput, expect_misses, expect_text, line_misses, line_text, mark_text, misses, run_text, set_text, sets_with};
ghost use Rattle.sim_runs.specs.PlayedScript.{CanPlay, Moves, line_event};
ghost use Rattle.sim_runs.specs.Runs.{IsRunOf, net_number};

use crate::fault::PlayFault;
use crate::moments::begin;
use crate::readings::{put_changes, put_readings};
use crate::shown::{Shown, shown_bits, untold_bits};
use edge_io::sink::Sink;
use edge_io::whole::WriteFault;
use event_parts::counted_cells::Steps;
use event_sim::EventSim;
use itoa::Buffer;
use netlist_link::Linked;
use netlist_meaning::Event;
use output_lines::gathered::{Gathered, Lent, Named, Origin, Page};
use output_lines::{Field, put_line, put_pieces};
use scan_vectors::scripts::{Script, ScriptLine, parts_of};
use scan_vectors::{Act, Line, Lines};
use signal_values::{PinSig, show};
use std::alloc::Global;
use std::marker::{Brand, PhantomData};
use std::sync::ledger::{Blank, Ledger};

/// Plays the script of event lines on a linked netlist, in which every flip-flop begins unknown, and puts the text of
/// the run as it goes. It answers how many expectations weren't met. All memory is taken before anything is put.
pub fn play<O: Sink>(
    alloc: Global,
    linked: &Linked,
    lines: &Lines,
    script: &Script,
    out: &mut O,
) -> Result<u64, PlayFault>
    requires { IsResolved linked.now lines.now script.now.list }
    ensures played { IfOk result (λ missed. (text : List ℕ)
        × IsOutput linked.now lines.now.list script.now.list text missed
        × (O.given out.new ≡ appended text (O.given out.old))) }
    ensures cut_short { IsErrOf result PlayFault.WriteFault → (text : List ℕ) × (missed k : ℕ)
        × IsOutput linked.now lines.now.list script.now.list text missed
        × (O.given out.new ≡ appended (take k text) (O.given out.old)) }
    ensures cause { IsErrOf result PlayFault.WriteFault → Rose (O.faults out.old) (O.faults out.new) }
    ensures memory { IsErrOf result PlayFault.OutOfMemory → O.given out.new ≡ O.given out.old }
    ensures later { O.faults out.old ≤ O.faults out.new }
{
    let netlist = linked.netlist();
    let Ok(mut sim) = begin(alloc, linked, script.list.as_slice()) else {
        return Err(PlayFault::OutOfMemory);
    };
    let Ok(bits) = shown_bits(alloc, netlist) else {
        return Err(PlayFault::OutOfMemory);
    };
    let Ok(mut told) = untold_bits(alloc, bits.as_slice()) else {
        return Err(PlayFault::OutOfMemory);
    };
    let Ok(page) = Page::new(alloc) else {
        return Err(PlayFault::OutOfMemory);
    };
    let played = put_gathered(
        linked,
        lines.list.as_slice(),
        script.list.as_slice(),
        &mut sim,
        bits.as_slice(),
        told.as_mut_slice(),
        out,
        page,
    );
    match played {
        Ok(missed) => Ok(missed),
        Err(WriteFault) => Err(PlayFault::WriteFault),
    }
}

// Puts the text of the run from its first moment on, in large pieces.
fn put_gathered<O: Sink>(
    linked: &Linked,
    lines: &[Line],
    script: &[ScriptLine],
    sim: &mut EventSim,
    bits: &[Shown],
    told: &mut [Option<PinSig>],
    out: &mut O,
    page: Page,
) -> Result<u64, WriteFault>
    requires page { page ≡ [] }
    requires linked { sim.old.linked ≡ linked.now }
    requires started { sim.old.started ≡ true }
    requires formed { IsWellFormed linked.now.arena.lists }
    requires playable { IsPlayable linked.now.arena.lists script.now }
    requires count { length script.now ≡ length lines.now }
    requires bits { AreBits linked.now.arena.lists bits.now }
    requires untold { told.old ≡ told_of untold bits.now }
    ensures ok { (moment : ℕ → Moment) → IsRunOf linked.now.arena.lists script.now moment
        → SameMoment linked.now.arena.lists (moment_of sim.old.moment) (moment 0)
        → IfOk result (λ missed. (missed ≡ misses linked.now moment 0 script.now)
        × (O.given out.new ≡ appended (run_text linked.now lines.now script.now moment)
        (O.given out.old))) }
    ensures fault { (moment : ℕ → Moment) → IsRunOf linked.now.arena.lists script.now moment
        → SameMoment linked.now.arena.lists (moment_of sim.old.moment) (moment 0)
        → OnErr result ((k : ℕ) × (O.given out.new
        ≡ appended (take k (run_text linked.now lines.now script.now moment)) (O.given out.old))) }
    ensures cause { OnErr result (Rose (O.faults out.old) (O.faults out.new)) }
    ensures later { O.faults out.old ≤ O.faults out.new }
{
    // (what the sink was given before, which takes no bytes, is noted here)
    let (lent, played) = put_lent::<Lent<O>, Brand>(
        linked,
        lines,
        script,
        sim,
        bits,
        told,
        Lent { out },
        page,
    );
    let Lent { out: given } = lent;
    // (this does nothing; the proof reads from it what the sink was given)
    let _ = &*given;
    played
}

// Puts it on a sink that is lent, and gives that back.
fn put_lent<S: Named, F: Origin>(
    linked: &Linked,
    lines: &[Line],
    script: &[ScriptLine],
    sim: &mut EventSim,
    bits: &[Shown],
    told: &mut [Option<PinSig>],
    lent: S,
    page: Page,
) -> (S, Result<u64, WriteFault>)
    requires name { S.name lent ≡ F.name }
    requires first { S.given lent ≡ F.first }
    requires page { page ≡ [] }
    requires linked { sim.old.linked ≡ linked.now }
    requires started { sim.old.started ≡ true }
    requires formed { IsWellFormed linked.now.arena.lists }
    requires playable { IsPlayable linked.now.arena.lists script.now }
    requires count { length script.now ≡ length lines.now }
    requires bits { AreBits linked.now.arena.lists bits.now }
    requires untold { told.old ≡ told_of untold bits.now }
    ensures same { S.name result.0 ≡ S.name lent }
    ensures ok { (moment : ℕ → Moment) → IsRunOf linked.now.arena.lists script.now moment
        → SameMoment linked.now.arena.lists (moment_of sim.old.moment) (moment 0)
        → IfOk result.1 (λ missed. (missed ≡ misses linked.now moment 0 script.now)
        × (S.given result.0 ≡ appended (run_text linked.now lines.now script.now moment)
        (S.given lent))) }
    ensures fault { (moment : ℕ → Moment) → IsRunOf linked.now.arena.lists script.now moment
        → SameMoment linked.now.arena.lists (moment_of sim.old.moment) (moment 0)
        → OnErr result.1 ((k : ℕ) × (S.given result.0
        ≡ appended (take k (run_text linked.now lines.now script.now moment))
        (S.given lent))) }
    ensures cause { OnErr result.1 (Rose (S.faults lent) (S.faults result.0)) }
    ensures later { S.faults lent ≤ S.faults result.0 }
{
    let mut gathered: Gathered<S, F> = Gathered {
        lent,
        page,
        of: PhantomData,
    };
    // (the count of evaluations, which takes no bytes, begins here)
    let played = put_run::<Gathered<S, F>, Brand>(
        linked,
        lines,
        script,
        sim,
        bits,
        told,
        &mut gathered,
        Blank::new(1),
    );
    let Ok(missed) = played else {
        return (gathered.lent, Err(WriteFault));
    };
    let Ok(()) = gathered.hand_on() else {
        return (gathered.lent, Err(WriteFault));
    };
    (gathered.lent, Ok(missed))
}

// Puts the text of the run from its first moment on.
fn put_run<O: Sink, L: Ledger>(
    linked: &Linked,
    lines: &[Line],
    script: &[ScriptLine],
    sim: &mut EventSim,
    bits: &[Shown],
    told: &mut [Option<PinSig>],
    out: &mut O,
    blank: Blank,
) -> Result<u64, WriteFault>
    requires name { blank.name ≡ L.name }
    requires parts { blank.parts ≡ L.parts }
    requires some { 0 < blank.parts }
    requires linked { sim.old.linked ≡ linked.now }
    requires started { sim.old.started ≡ true }
    requires formed { IsWellFormed linked.now.arena.lists }
    requires playable { IsPlayable linked.now.arena.lists script.now }
    requires count { length script.now ≡ length lines.now }
    requires bits { AreBits linked.now.arena.lists bits.now }
    requires untold { told.old ≡ told_of untold bits.now }
    ensures ok { (moment : ℕ → Moment) → IsRunOf linked.now.arena.lists script.now moment
        → SameMoment linked.now.arena.lists (moment_of sim.old.moment) (moment 0)
        → IfOk result (λ missed. (missed ≡ misses linked.now moment 0 script.now)
        × (O.given out.new ≡ appended (run_text linked.now lines.now script.now moment)
        (O.given out.old))) }
    ensures fault { (moment : ℕ → Moment) → IsRunOf linked.now.arena.lists script.now moment
        → SameMoment linked.now.arena.lists (moment_of sim.old.moment) (moment 0)
        → OnErr result ((k : ℕ) × (O.given out.new
        ≡ appended (take k (run_text linked.now lines.now script.now moment)) (O.given out.old))) }
    ensures cause { OnErr result (Rose (O.faults out.old) (O.faults out.new)) }
    ensures later { O.faults out.old ≤ O.faults out.new }
{
    let Ok(()) = put_readings(out, linked, sim, bits, told) else {
        return Err(WriteFault);
    };
    let mut steps: Steps<L> = Steps::new(blank);
    let mut sets: u64 = 0;
    let mut missed: u64 = 0;
    for (place, line) in script.iter().enumerate() {
        let Ok(one) = play_line(
            linked,
            &lines[place],
            line,
            sim,
            bits,
            told,
            out,
            &mut steps,
        ) else {
            return Err(WriteFault);
        };
        sets = sets_with(line.act, sets);
        missed += one;
    }
    let counts = [Field::Number(sets), Field::Number(missed)];
    let Ok(()) = put_line(out, &Field::Word(b"done"), &counts) else {
        return Err(WriteFault);
    };
    Ok(missed)
}

// The count of sets, with that of a line.
fn sets_with(act: Act, sets: u64) -> u64
    requires { sets + 1 < 2 ^ 64 }
    ensures { result ≡ sets_with act sets }
{
    match act {
        Act::Set => sets + 1,
        Act::Start | Act::Expect => sets,
    }
}

// Plays a line, and puts what it puts; how many expectations it misses.
fn play_line<O: Sink, L: Ledger>(
    linked: &Linked,
    written: &Line,
    line: &ScriptLine,
    sim: &mut EventSim,
    bits: &[Shown],
    told: &mut [Option<PinSig>],
    out: &mut O,
    steps: &mut Steps<L>,
) -> Result<u64, WriteFault>
    requires linked { sim.old.linked ≡ linked.now }
    requires started { sim.old.started ≡ true }
    requires can { CanPlay line.now.act linked.now.arena.lists line.now }
    requires bits { AreBits linked.now.arena.lists bits.now }
    requires told { told.old ≡ told_of (told_at linked.now.arena.lists
        (moment_of sim.old.moment)) bits.now }
    ensures linked { sim.new.linked ≡ linked.now }
    ensures started { sim.new.started ≡ true }
    ensures moves { Moves line.now.act linked.now.arena.lists line.now (moment_of sim.old.moment)
        (moment_of sim.new.moment) }
    ensures told { OnOk result (told.new ≡ told_of
        (told_at linked.now.arena.lists (moment_of sim.new.moment)) bits.now) }
    ensures ok { OnOk result (O.given out.new
        ≡ appended (line_text linked.now line.now.act line.now (pin_of written.now)
        (moment_of sim.old.moment) (moment_of sim.new.moment)) (O.given out.old)) }
    ensures missed { IfOk result (λ missed. missed
        ≡ line_misses linked.now line.now.act line.now (moment_of sim.old.moment)) }
    ensures few { IfOk result (λ missed. missed ≤ 1) }
    ensures fault { OnErr result ((k : ℕ) × (O.given out.new
        ≡ appended (take k (line_text linked.now line.now.act line.now (pin_of written.now)
        (moment_of sim.old.moment) (moment_of sim.new.moment))) (O.given out.old))) }
    ensures cause { OnErr result (Rose (O.faults out.old) (O.faults out.new)) }
    ensures later { O.faults out.old ≤ O.faults out.new }
{
    match line.act {
        Act::Start => Ok(0),
        Act::Set => {
            let Ok(()) = play_set(linked, line, sim, bits, told, out, steps) else {
                return Err(WriteFault);
            };
            Ok(0)
        }
        Act::Expect => put_expect(out, written, line, sim),
    }
}

// Steps by the event of a set, and puts its line's number and the readings that changed.
fn play_set<O: Sink, L: Ledger>(
    linked: &Linked,
    line: &ScriptLine,
    sim: &mut EventSim,
    bits: &[Shown],
    told: &mut [Option<PinSig>],
    out: &mut O,
    steps: &mut Steps<L>,
) -> Result<(), WriteFault>
    requires linked { sim.old.linked ≡ linked.now }
    requires started { sim.old.started ≡ true }
    requires legal { IsLegalEvent linked.now.arena.lists (line_event line.now) }
    requires bits { AreBits linked.now.arena.lists bits.now }
    requires told { told.old ≡ told_of (told_at linked.now.arena.lists
        (moment_of sim.old.moment)) bits.now }
    ensures linked { sim.new.linked ≡ linked.now }
    ensures started { sim.new.started ≡ true }
    ensures step { IsEventStep linked.now.arena.lists (line_event line.now) (moment_of sim.old.moment)
        (moment_of sim.new.moment) }
    ensures told { OnOk result (told.new ≡ told_of
        (told_at linked.now.arena.lists (moment_of sim.new.moment)) bits.now) }
    ensures ok { OnOk result (O.given out.new
        ≡ appended (set_text linked.now line.now.number (moment_of sim.old.moment)
        (moment_of sim.new.moment)) (O.given out.old)) }
    ensures fault { OnErr result ((k : ℕ) × (O.given out.new
        ≡ appended (take k (set_text linked.now line.now.number (moment_of sim.old.moment)
        (moment_of sim.new.moment))) (O.given out.old))) }
    ensures cause { OnErr result (Rose (O.faults out.old) (O.faults out.new)) }
    ensures later { O.faults out.old ≤ O.faults out.new }
{
    let event = Event {
        pin: line.pin,
        value: line.value,
    };
    sim.apply(event, steps);
    let Ok(()) = put_mark(out, line.number) else {
        return Err(WriteFault);
    };
    let Ok(()) = put_changes(out, linked, sim, bits, told) else {
        return Err(WriteFault);
    };
    Ok(())
}

// Puts the number of a set's line.
fn put_mark<O: Sink>(out: &mut O, number: u64) -> Result<(), WriteFault>
    ensures { Puts O.given O.faults out.old out.new (mark_text number) result }
{
    let mut digits = Buffer::new();
    put_pieces(out, &[b"@", digits.format(number).as_bytes(), b"\n"])
}

// Puts an expectation that isn't met; how many it misses.
fn put_expect<O: Sink>(
    out: &mut O,
    written: &Line,
    line: &ScriptLine,
    sim: &EventSim,
) -> Result<u64, WriteFault>
    requires started { sim.now.started ≡ true }
    requires pin { IsSome (net_of sim.now.linked.arena.lists.ports line.now.pin) }
    ensures ok { OnOk result (O.given out.new
        ≡ appended (expect_text line.now.number (pin_of written.now) line.now.value
        (reading_at sim.now.linked.arena.lists (moment_of sim.now.moment) (net_number sim.now.linked.arena.lists line.now.pin))) (O.given out.old)) }
    ensures missed { IfOk result (λ missed. missed ≡ expect_misses line.now.value
        (reading_at sim.now.linked.arena.lists (moment_of sim.now.moment) (net_number sim.now.linked.arena.lists line.now.pin))) }
    ensures few { IfOk result (λ missed. missed ≤ 1) }
    ensures fault { OnErr result ((k : ℕ) × (O.given out.new
        ≡ appended (take k (expect_text line.now.number (pin_of written.now) line.now.value
        (reading_at sim.now.linked.arena.lists (moment_of sim.now.moment) (net_number sim.now.linked.arena.lists line.now.pin)))) (O.given out.old))) }
    ensures cause { OnErr result (Rose (O.faults out.old) (O.faults out.new)) }
    ensures later { O.faults out.old ≤ O.faults out.new }
{
    let got = sim.reading(line.pin);
    put_missed(out, written, line, got)
}

// Puts an expectation whose pin reads this, unless it is met; how many it misses.
fn put_missed<O: Sink>(
    out: &mut O,
    written: &Line,
    line: &ScriptLine,
    got: PinSig,
) -> Result<u64, WriteFault>
    ensures ok { OnOk result (O.given out.new
        ≡ appended (expect_text line.now.number (pin_of written.now) line.now.value got)
        (O.given out.old)) }
    ensures missed { IfOk result (λ missed. missed ≡ expect_misses line.now.value got) }
    ensures fault { OnErr result ((k : ℕ) × (O.given out.new
        ≡ appended (take k (expect_text line.now.number (pin_of written.now) line.now.value got))
        (O.given out.old))) }
    ensures cause { OnErr result (Rose (O.faults out.old) (O.faults out.new)) }
    ensures later { O.faults out.old ≤ O.faults out.new }
{
    if show(line.value) == show(got) {
        return Ok(0);
    }
    let want = [show(line.value)];
    let got = [show(got)];
    let fields = [
        Field::Number(line.number),
        Field::Word(parts_of(written).word),
        Field::Word(&want),
        Field::Word(&got),
    ];
    let Ok(()) = put_line(out, &Field::Word(b"missed"), &fields) else {
        return Err(WriteFault);
    };
    Ok(1)
}
