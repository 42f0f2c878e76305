ghost use Rattle.std.specs.Prelude.{◌≤◌, length, IfErr, IfOk};
ghost use Rattle.command_faults.specs.Statuses.{status_of};
ghost use Rattle.command_edges.specs.Ends.{IsEnd};
ghost use Rattle.command_edges.specs.Libraries.{name_of};
ghost use Rattle.command_edges.specs.Names.{IsOneOf, names_of};
ghost use Rattle.command_edges.specs.Seen.{shelf_seen, sink_seen};
ghost use Rattle.command_edges.specs.Tasks.{Completes, Finishes, Keeps, Stands};
ghost use Rattle.play_command.specs.SimTasks.{sim_of, sim_task};

use crate::sim::laws::simulation_faults_stand_apart;
use crate::sim::plays::play_all;
use command_edges::read_all;
use command_faults::{Fault, Status};
use edge_io::shelf::Shelf;
use edge_io::sink::Sink;
use std::alloc::Global;

// Plays the texts that lie under these names: of a netlist, of events, and of a library if there is one.
fn simulate_files<'a, S: Shelf, O: Sink>(
    alloc: Global,
    shelf: &mut S,
    out: &mut O,
    files: &[&'a str],
) -> Result<Status, Fault<'a>>
    requires { 2 ≤ length files.now }
    ensures done { IfOk result (Finishes (sim_of (names_of files.now))
        (shelf_seen S.tells S.held S.written S.faults shelf.old shelf.new)
        (sink_seen O.given O.faults out.old out.new)) }
    ensures ended { IfOk result IsEnd }
    ensures fault { IfErr result (λ fault. Stands (sim_of (names_of files.now))
        (shelf_seen S.tells S.held S.written S.faults shelf.old shelf.new)
        (sink_seen O.given O.faults out.old out.new) fault (O.given out.new)) }
    ensures complete { IfErr result (λ fault. Completes (sim_of (names_of files.now))
        (shelf_seen S.tells S.held S.written S.faults shelf.old shelf.new)
        (sink_seen O.given O.faults out.old out.new) (status_of fault)) }
    ensures keeps { Keeps (λ name. IsOneOf name (sim_of (names_of files.now)).writes)
        (shelf_seen S.tells S.held S.written S.faults shelf.old shelf.new)
        (sink_seen O.given O.faults out.old out.new) }
{
    // A law that the proof uses.
    simulation_faults_stand_apart();
    let texts = read_all(alloc, shelf, files)?;
    play_all(alloc, texts, out)
}

/// Plays the events that lie under one name on the netlist that lies under another, with the library that lies under a
/// third if there is one, and puts what the run puts, as it goes. The status is `Done`, or `Missed` where an
/// expectation isn't met.
pub fn simulate<'a, S: Shelf, O: Sink>(
    alloc: Global,
    shelf: &mut S,
    out: &mut O,
    netlist: &'a str,
    events: &'a str,
    library: Option<&'a str>,
) -> Result<Status, Fault<'a>>
    ensures done { IfOk result (Finishes (sim_task netlist.now events.now (name_of library.entry))
        (shelf_seen S.tells S.held S.written S.faults shelf.old shelf.new)
        (sink_seen O.given O.faults out.old out.new)) }
    ensures ended { IfOk result IsEnd }
    ensures fault { IfErr result (λ fault. Stands (sim_task netlist.now events.now (name_of library.entry))
        (shelf_seen S.tells S.held S.written S.faults shelf.old shelf.new)
        (sink_seen O.given O.faults out.old out.new) fault (O.given out.new)) }

    // Where no fault stands in the texts, and no count rises, it wants memory.
    ensures complete { IfErr result (λ fault. Completes (sim_task netlist.now events.now (name_of library.entry))
        (shelf_seen S.tells S.held S.written S.faults shelf.old shelf.new)
        (sink_seen O.given O.faults out.old out.new) (status_of fault)) }
    ensures keeps { Keeps (λ name. IsOneOf name (sim_task netlist.now events.now (name_of library.entry)).writes)
        (shelf_seen S.tells S.held S.written S.faults shelf.old shelf.new)
        (sink_seen O.given O.faults out.old out.new) }
{
    match library {
        Some(library) => simulate_files(alloc, shelf, out, &[netlist, events, library]),
        None => simulate_files(alloc, shelf, out, &[netlist, events]),
    }
}
