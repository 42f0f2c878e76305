// Plays a script and judges its expectations.
ghost use Rattle.std.specs.Prelude.{◌≡◌, ◌+◌, ◌<◌, ◌^◌, ◌∷◌, [], true, IfOk, OnOk};
ghost use Rattle.scan_vectors.specs.Scripts.{IsPlayable};
ghost use Rattle.netlist_meaning.specs.Sims.{moment_of};
ghost use Rattle.sim_runs.specs.Outputs.{sets_with};
ghost use Rattle.sim_runs.specs.PlayedScript.{CanPlay, IsFirst, Moves};
ghost use Rattle.conformance_report.specs.Verdicts.{IsVerdict, Judges, expectation, expected_by};

use crate::verdict::{Missed, Verdict};
use event_parts::counted_cells::Steps;
use netlist_link::Linked;
use netlist_meaning::Event;
use scan_vectors::Act;
use scan_vectors::scripts::{Script, ScriptLine};
use signal_values::{PinSig, show};
use sim_runs::begin;
use sim_runs::lower_event_sim::EventSim;
use std::alloc::Global;
use std::marker::Brand;
use std::sync::ledger::{Blank, Ledger};
use texts::{OutOfMemory, Row};

/// Plays a script on a linked netlist, in which every flip-flop begins unknown, and tells which of its
/// expectations are met.
pub fn judge(alloc: Global, linked: &Linked, script: &Script) -> Result<Verdict, OutOfMemory>
    requires { IsPlayable linked.now.arena.lists script.now.list }
    ensures { IfOk result (IsVerdict linked.now.arena.lists script.now.list) }
{
    // (what stands of a netlist that was linked)
    let _netlist = linked.netlist();
    let mut sim = begin(alloc, linked, script.list.as_slice())?;
    // (the count of evaluations, which takes no bytes, begins here)
    judge_lines::<Brand>(
        alloc,
        linked,
        &mut sim,
        script.list.as_slice(),
        Blank::new(1),
    )
}

// Plays the lines from the first moment on.
fn judge_lines<L: Ledger>(
    alloc: Global,
    linked: &Linked,
    sim: &mut EventSim,
    script: &[ScriptLine],
    blank: Blank,
) -> Result<Verdict, OutOfMemory>
    requires name { blank.name ≡ L.name }
    requires parts { blank.parts ≡ L.parts }
    requires some { 0 < blank.parts }
    requires linked { sim.old.linked ≡ linked.now }
    requires started { sim.old.started ≡ true }
    requires playable { IsPlayable linked.now.arena.lists script.now }
    requires first { IsFirst linked.now.arena.lists script.now (moment_of sim.old.moment) }
    ensures { IfOk result (IsVerdict linked.now.arena.lists script.now) }
{
    let mut steps: Steps<L> = Steps::new(blank);
    let mut verdict = Verdict {
        sets: 0,
        met: 0,
        missed: Row::new(alloc),
    };
    for line in script {
        take_line(&mut verdict, sim, line, &mut steps)?;
    }
    Ok(verdict)
}

// Takes the next line: a set steps, and an expectation is met or missed.
fn take_line<L: Ledger>(
    verdict: &mut Verdict,
    sim: &mut EventSim,
    line: &ScriptLine,
    steps: &mut Steps<L>,
) -> Result<(), OutOfMemory>
    requires started { sim.old.started ≡ true }
    requires can { CanPlay line.now.act sim.old.linked.arena.lists line.now }
    requires sets { verdict.old.sets + 1 < 2 ^ 64 }
    requires met { verdict.old.met + 1 < 2 ^ 64 }
    ensures linked { sim.new.linked ≡ sim.old.linked }
    ensures started { sim.new.started ≡ true }
    ensures moves { Moves line.now.act sim.old.linked.arena.lists line.now (moment_of sim.old.moment)
        (moment_of sim.new.moment) }
    ensures sets { OnOk result (verdict.new.sets ≡ sets_with line.now.act verdict.old.sets) }
    ensures judges { OnOk result (Judges (expected_by line.now.act sim.old.linked.arena.lists line.now
        (moment_of sim.old.moment)) verdict.old verdict.new) }
{
    match line.act {
        Act::Start => Ok(()),
        Act::Set => {
            let event = Event {
                pin: line.pin,
                value: line.value,
            };
            sim.apply(event, steps);
            verdict.sets += 1;
            Ok(())
        }
        Act::Expect => take_reading(verdict, line, sim.reading(line.pin)),
    }
}

// Takes what the pin of an expectation reads.
fn take_reading(verdict: &mut Verdict, line: &ScriptLine, got: PinSig) -> Result<(), OutOfMemory>
    requires met { verdict.old.met + 1 < 2 ^ 64 }
    ensures sets { OnOk result (verdict.new.sets ≡ verdict.old.sets) }
    ensures judges { OnOk result (Judges (expectation line.now got ∷ []) verdict.old verdict.new) }
{
    if show(line.value) == show(got) {
        verdict.met += 1;
        return Ok(());
    }
    verdict.missed.push(Missed {
        line: line.number,
        want: line.value,
        got,
    })
}
