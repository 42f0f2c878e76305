ghost use Rattle.std.specs.Prelude.{◌≢◌, IfErr, IfOk};
ghost use Rattle.edge_io.specs.Shelf.{SameTold};
ghost use Rattle.command_faults.specs.Statuses.{status_of};
ghost use Rattle.command_faults.specs.declared.status.Status.{Status};
ghost use Rattle.command_edges.specs.Ends.{IsEnd};
ghost use Rattle.command_edges.specs.Seen.{shelf_seen, sink_seen};
ghost use Rattle.command_edges.specs.Tasks.{Keeps};
ghost use Rattle.command_line.specs.Causes.{Completes, Fails, Finishes, Stands};
ghost use Rattle.command_line.specs.Meets.{MissesNothing};
ghost use Rattle.command_line.specs.Names.{Writes};

use crate::command::command_of;
use crate::dispatch::run_command;
use crate::words::WordList;
use cell_text::texts_of_libraries_are_spelled_or_at_fault;
use command_faults::{Fault, Status, put_fault};
use edge_io::shelf::Shelf;
use edge_io::sink::Sink;
use insertion_laws::checks::written_programs_miss_nothing;
use std::alloc::Global;

// Runs the command that the words are, up to its fault.
fn run<'a, S: Shelf, O: Sink>(
    alloc: Global,
    words: &'a WordList,
    shelf: &mut S,
    out: &mut O,
) -> Result<Status, Fault<'a>>
    ensures done { IfOk result (Finishes words.now
        (shelf_seen S.tells S.held S.written S.faults shelf.old shelf.new)
        (sink_seen O.given O.faults out.old out.new)) }
    ensures ended { IfOk result IsEnd }
    ensures fault { IfErr result (λ fault. Stands words.now
        (shelf_seen S.tells S.held S.written S.faults shelf.old shelf.new)
        (sink_seen O.given O.faults out.old out.new) fault (O.given out.new)) }
    ensures complete { IfErr result (λ fault. Completes words.now
        (shelf_seen S.tells S.held S.written S.faults shelf.old shelf.new)
        (sink_seen O.given O.faults out.old out.new) (status_of fault)) }
    ensures keeps { Keeps (Writes words.now)
        (shelf_seen S.tells S.held S.written S.faults shelf.old shelf.new)
        (sink_seen O.given O.faults out.old out.new) }
{
    let Some(command) = command_of(words) else {
        return Err(Fault::Usage);
    };
    run_command(alloc, shelf, out, command)
}

/// Runs the command that the words are, over a shelf of texts and a sink, and answers how it ended. A fault puts its
/// line on the sink; a put that fails changes no status. Want of memory comes only before anything is written.
pub fn run_tool<S: Shelf, O: Sink>(
    alloc: Global,
    words: &WordList,
    shelf: &mut S,
    out: &mut O,
) -> Status
    // At status 0 a conversion's output is the canonical text of the one tree or device that the input spells, of
    // `statusbsdl` of the one device with its registers; that of `flatten` is the canonical text of the flat module of
    // one of those that the input spells, that of `vectors` is the text of the program of the device, and those of
    // `strip` are the canonical texts of a netlist and a plan from which the two inputs come; nothing is put. At
    // status 0 or 6 a simulation put the text of the events' run, or a check its misses and its last line, and the
    // status is 6 where an expectation isn't met. At status 0 an insertion wrote the netlist with the plan's test
    // logic and the BSDL text of its device, and put its report; `status` did so with registers of the design's own;
    // and a demonstration did so for the netlist of its number, and put its line.
    ensures done { IsEnd result → Finishes words.now
        (shelf_seen S.tells S.held S.written S.faults shelf.old shelf.new)
        (sink_seen O.given O.faults out.old out.new) result }

    // Any other status has a fault that stands, and the sink got its line; before it only a command whose giving
    // failed put a front of its text. A fault of writing says what it leaves.
    ensures fault { (IsEnd result → ⊥) → Fails words.now
        (shelf_seen S.tells S.held S.written S.faults shelf.old shelf.new)
        (sink_seen O.given O.faults out.old out.new) result }

    // Only a write that failed leaves anything changed, and only under the outputs' names.
    ensures unwritten { (IsEnd result → ⊥) → result ≢ Status.WriteFault
        → SameTold (S.written shelf.old) (S.written shelf.new) }
    ensures keeps { Keeps (Writes words.now)
        (shelf_seen S.tells S.held S.written S.faults shelf.old shelf.new)
        (sink_seen O.given O.faults out.old out.new) }

    // Where no fault stands in the words and in what the command reads, and the counts of faults of its own names and
    // of the sink don't rise, the command comes to its end, or wants memory.
    ensures complete { (IsEnd result → ⊥) → Completes words.now
        (shelf_seen S.tells S.held S.written S.faults shelf.old shelf.new)
        (sink_seen O.given O.faults out.old out.new) result }

    // A check of a netlist that keeps another's ports and cells and realises its chip, by the program of that chip's
    // device, never misses, however the texts are spelled; the library is the one that the word LIB names, or none.
    ensures meets { MissesNothing words.now
        (shelf_seen S.tells S.held S.written S.faults shelf.old shelf.new) result }
{
    // Laws that the proof uses.
    written_programs_miss_nothing();
    texts_of_libraries_are_spelled_or_at_fault();
    let fault = match run(alloc, words, shelf, out) {
        Ok(status) => return status,
        Err(fault) => fault,
    };
    let status = fault.status();
    let _ = put_fault(out, &fault);
    status
}
