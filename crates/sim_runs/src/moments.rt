// The start of a script.

ghost use Rattle.std.specs.Prelude.{◌≡◌, true, length, IfOk};
ghost use Rattle.netlist_model.specs.Formed.{IsWellFormed};
ghost use Rattle.scan_vectors.specs.Scripts.{IsPlayable};
ghost use Rattle.netlist_meaning.specs.Pins.{ArePinsOf, outside};
ghost use Rattle.netlist_meaning.specs.Sims.{moment_of};
ghost use Rattle.sim_runs.specs.PlayedScript.{AreKnown, CanStart, HaveStarts, IsFirst, TakesStart};

use event_sim::EventSim;
use netlist_link::Linked;
use netlist_meaning::{Pins, State};
use scan_vectors::Act;
use scan_vectors::scripts::ScriptLine;
use std::alloc::Global;
use texts::OutOfMemory;

/// A linked netlist at the first moment of a script.
pub fn begin<'a>(
    alloc: Global,
    linked: &'a Linked,
    script: &[ScriptLine],
) -> Result<EventSim<'a>, OutOfMemory>
    requires formed { IsWellFormed linked.now.arena.lists }
    requires playable { IsPlayable linked.now.arena.lists script.now }
    ensures linked { IfOk result (λ sim. sim.linked ≡ linked.now) }
    ensures started { IfOk result (λ sim. sim.started ≡ true) }
    ensures first { IfOk result (λ sim. IsFirst linked.now.arena.lists script.now
        (moment_of sim.moment)) }
{
    let pins = pins_of(alloc, linked, script)?;
    let state = State::new(alloc, linked)?;
    match EventSim::new(alloc, linked) {
        Ok(mut sim) => {
            sim.start(&pins, &state);
            Ok(sim)
        }
        Err(_) => Err(OutOfMemory),
    }
}

// The pins that the starts give.
fn pins_of(alloc: Global, linked: &Linked, script: &[ScriptLine]) -> Result<Pins, OutOfMemory>
    requires formed { IsWellFormed linked.now.arena.lists }
    requires playable { IsPlayable linked.now.arena.lists script.now }
    ensures made { IfOk result (λ pins. ArePinsOf linked.now.arena.lists pins) }
    ensures known { IfOk result (λ pins. AreKnown linked.now.arena.lists (outside pins)) }
    ensures starts { IfOk result (λ pins. HaveStarts linked.now.arena.lists script.now (outside pins)) }
{
    let mut pins = Pins::new(alloc, linked)?;
    for line in script {
        take_start(&mut pins, line);
    }
    Ok(pins)
}

// Gives a pin what its start says.
fn take_start(pins: &mut Pins, line: &ScriptLine)
    requires { CanStart line.now.act pins.old.ports line.now }
    ensures ports { pins.new.ports ≡ pins.old.ports }
    ensures count { length pins.new.values ≡ length pins.old.values }
    ensures start { TakesStart line.now.act pins.old.ports line.now (outside pins.old)
        (outside pins.new) }
{
    match line.act {
        Act::Start => pins.set(line.pin, line.value),
        Act::Set | Act::Expect => {}
    }
}
