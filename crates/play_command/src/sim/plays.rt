// From texts that were read to the text that is put.
ghost use Rattle.std.specs.Prelude.{◌≡◌, ◌≤◌, ℕ, List, ◌∷◌, length, IfOk, IfErr};
ghost use Rattle.box_model.specs.Sound.{IsSoundLibrary};
ghost use Rattle.command_edges.specs.Ends.{IsEnd, run_status};
ghost use Rattle.command_edges.specs.Libraries.{IsBoxLibraryOf};
ghost use Rattle.command_edges.specs.Seen.{sink_seen};
ghost use Rattle.play_command.specs.BoxNetlists.{at_end, SpellsBoxLinked, StandsInBoxNetlist};
ghost use Rattle.play_command.specs.Played.{FailsToPlay, FailsToPlayOn, IsPlayed, IsPlayedOn};

use crate::box_netlists::link_behind;
use box_links::box_faults_forbid_box_links;
use box_model::BoxLibrary;
use command_edges::take_two_boxed;
use command_faults::{Fault, Status};
use default_starts::with_starts;
use edge_io::sink::Sink;
use netlist_link::Linked;
use scan_vectors::read_events;
use scan_vectors::scripts::resolve;
use sim_runs::{PlayFault, play};
use std::alloc::Global;
use texts::{Row, Text};
use verilog_texts::read_module;

// The status at the end of a run in which so many expectations weren't met.
fn status_after(missed: u64) -> Status
    ensures status { result ≡ run_status missed }
    ensures end { IsEnd result }
{
    if missed == 0 {
        Status::Done
    } else {
        Status::Missed
    }
}

// The netlist that a text spells, with this library.
#[tactic(auto, using(crate::proofs::BoxNetlists::linked_made, crate::proofs::BoxNetlists::fault_made))]
fn linked_of<'a>(alloc: Global, net: Text, library: &BoxLibrary) -> Result<Linked, Fault<'a>>
    requires { IsSoundLibrary library.now }
    ensures linked { IfOk result (SpellsBoxLinked at_end library.now net) }
    ensures fault { IfErr result (StandsInBoxNetlist at_end library.now net) }
{
    let tree = read_module(alloc, net)?;
    let first = tree.ports.len();
    link_behind(alloc, library, first, tree)
}

// Plays the events that a text spells on a netlist.
#[tactic(auto, using(crate::proofs::BoxNetlists::started_numbers))]
fn play_on<'a, O: Sink>(
    alloc: Global,
    linked: &Linked,
    events: &[u8],
    out: &mut O,
) -> Result<Status, Fault<'a>>
    ensures done { IfOk result (IsPlayedOn linked.now events.now
        (sink_seen O.given O.faults out.old out.new)) }
    ensures fault { IfErr result (λ fault. FailsToPlayOn linked.now events.now
        (sink_seen O.given O.faults out.old out.new) fault (O.given out.new)) }
    ensures ended { IfOk result IsEnd }
    ensures later { O.faults out.old ≤ O.faults out.new }
{
    let lines = read_events(alloc, events)?;
    let lines = with_starts(alloc, linked, lines)?;
    let script = resolve(alloc, &lines, linked)?;
    match play(alloc, linked, &lines, &script, out) {
        Ok(missed) => Ok(status_after(missed)),
        Err(PlayFault::OutOfMemory) => Err(Fault::OutOfMemory),
        Err(PlayFault::WriteFault) => Err(Fault::WriteFault {
            name: "standard-output",
        }),
    }
}

// Plays the events that one text spells on the netlist that the other spells with this library.
fn play_texts<'a, O: Sink>(
    alloc: Global,
    net: Text,
    events: Text,
    library: BoxLibrary,
    out: &mut O,
) -> Result<Status, Fault<'a>>
    requires { IsSoundLibrary library }
    ensures done { (more : List (List ℕ)) → IsBoxLibraryOf more library
        → IfOk result (IsPlayed (net ∷ events ∷ more)
        (sink_seen O.given O.faults out.old out.new)) }
    ensures fault { (more : List (List ℕ)) → IsBoxLibraryOf more library
        → IfErr result (λ fault. FailsToPlay (net ∷ events ∷ more)
        (sink_seen O.given O.faults out.old out.new) fault (O.given out.new)) }
    ensures ended { IfOk result IsEnd }
    ensures later { O.faults out.old ≤ O.faults out.new }
{
    // A law that the proof uses.
    box_faults_forbid_box_links();
    let linked = linked_of(alloc, net, &library)?;
    play_on(alloc, &linked, events.as_bytes(), out)
}

/// Plays the texts of a netlist and of events, and of a library if there is one.
pub fn play_all<'a, O: Sink>(
    alloc: Global,
    texts: Row<Text>,
    out: &mut O,
) -> Result<Status, Fault<'a>>
    requires { 2 ≤ length texts }
    ensures done { IfOk result (IsPlayed texts (sink_seen O.given O.faults out.old out.new)) }
    ensures fault { IfErr result (λ fault. FailsToPlay texts
        (sink_seen O.given O.faults out.old out.new) fault (O.given out.new)) }
    ensures ended { IfOk result IsEnd }
    ensures later { O.faults out.old ≤ O.faults out.new }
{
    let mut texts = texts.into_vec();
    let (net, events, library) = take_two_boxed(alloc, texts.as_mut_slice())?;
    play_texts(alloc, net, events, library, out)
}
