// Running a command that makes texts of texts.
ghost use Rattle.std.specs.Prelude.{◌≡◌, ◌++◌, length, IfErr, IfOk, OnOk};
ghost use Rattle.command_faults.specs.Statuses.{status_of};
ghost use Rattle.command_faults.specs.declared.status.Status.{Status};
ghost use Rattle.command_edges.specs.Ends.{IsEnd};
ghost use Rattle.command_edges.specs.Libraries.{name_of, names_if};
ghost use Rattle.command_edges.specs.Names.{IsOneOf, StandOnce, names_of};
ghost use Rattle.command_edges.specs.Seen.{shelf_seen, sink_seen};
ghost use Rattle.command_edges.specs.Texts.{AreWritten};
ghost use Rattle.command_edges.specs.Tasks.{Completes, Finishes, IsPut, Keeps, Stands, StandsInGiving, Task};

use crate::reads::read_with_library;
use crate::writes::{put_text, write_all};
use command_faults::{Fault, Status};
use edge_io::shelf::Shelf;
use edge_io::sink::Sink;
use std::alloc::Global;
use texts::{Row, Text};

/// What a command makes of the texts that it reads: those to be written, in order, the one to be put, if it puts one,
/// and the status with which it then ends.
#[derive(Drop)]
pub struct Made {
    pub outputs: Row<Text>,
    pub put: Text,
    pub status: Status,
}

/// A command that makes texts of texts, all of them before it writes or puts anything.
pub trait TextCommand: Drop {
    /// What it is to do.
    ghost task: { Self → Task };

    /// Makes its texts of those that it read, which stand in the order of their names. It may let go what it has
    /// no more use for.
    fn make<'a>(self, alloc: Global, texts: &mut [Text]) -> Result<Made, Fault<'a>>
        requires { length texts.old ≡ length (task self).reads }
        ensures made { IfOk result (λ made. (task self).Makes texts.old made.outputs made.put made.status) }
        ensures count { IfOk result (λ made. length made.outputs ≡ length (task self).writes) }
        ensures ended { IfOk result (λ made. IsEnd made.status) }
        ensures fault { IfErr result ((task self).HaveFault texts.old) }
        ensures free { IfErr result (λ fault. (task self).AreFree texts.old
            → status_of fault ≡ Status.Memory) };
}

// What a command makes of these texts.
fn made_of<'a, C: TextCommand>(
    alloc: Global,
    command: C,
    texts: Row<Text>,
) -> Result<Made, Fault<'a>>
    requires { length texts ≡ length (C.task command).reads }
    ensures made { IfOk result (λ made. (C.task command).Makes texts made.outputs made.put made.status) }
    ensures count { IfOk result (λ made. length made.outputs ≡ length (C.task command).writes) }
    ensures ended { IfOk result (λ made. IsEnd made.status) }
    ensures fault { IfErr result ((C.task command).HaveFault texts) }
    ensures free { IfErr result (λ fault. (C.task command).AreFree texts
        → status_of fault ≡ Status.Memory) }
{
    let mut texts = texts.into_vec();
    command.make(alloc, texts.as_mut_slice())
}

// Writes and puts what a command made, and answers how it ends.
fn give<'a, S: Shelf, O: Sink>(
    shelf: &mut S,
    out: &mut O,
    writes: &[&'a str],
    puts: bool,
    made: Made,
) -> Result<Status, Fault<'a>>
    requires count { length made.outputs ≡ length (names_of writes.now) }
    requires apart { StandOnce (names_of writes.now) }
    ensures status { IfOk result (λ end. end ≡ made.status) }
    ensures written { OnOk result (AreWritten (names_of writes.now) made.outputs
        (shelf_seen S.tells S.held S.written S.faults shelf.old shelf.new)) }
    ensures is_put { OnOk result (IsPut puts made.put (sink_seen O.given O.faults out.old out.new)) }
    ensures fault { IfErr result (λ fault. StandsInGiving (names_of writes.now) made.outputs puts made.put
        (shelf_seen S.tells S.held S.written S.faults shelf.old shelf.new)
        (sink_seen O.given O.faults out.old out.new) fault (O.given out.new)) }
    ensures keeps { Keeps (λ name. IsOneOf name (names_of writes.now))
        (shelf_seen S.tells S.held S.written S.faults shelf.old shelf.new)
        (sink_seen O.given O.faults out.old out.new) }
{
    write_all(shelf, writes, made.outputs.as_slice())?;
    if puts {
        put_text(out, &made.put)?;
    }
    Ok(made.status)
}

/// Runs a command on its files, whose names are those of its task: reads the texts, the one of a library last, if there
/// is one, makes what is to be written and put, writes it, and puts it, if it puts a text.
pub fn run_task<'a, C: TextCommand, S: Shelf, O: Sink>(
    alloc: Global,
    shelf: &mut S,
    out: &mut O,
    command: C,
    reads: &[&'a str],
    library: Option<&'a str>,
    writes: &[&'a str],
    puts: bool,
) -> Result<Status, Fault<'a>>
    requires reads { names_of reads.now ++ names_if (name_of library) ≡ (C.task command).reads }
    requires writes { names_of writes.now ≡ (C.task command).writes }
    requires puts { puts ≡ (C.task command).puts }
    requires apart { StandOnce (names_of writes.now) }
    ensures done { IfOk result (Finishes (C.task command)
        (shelf_seen S.tells S.held S.written S.faults shelf.old shelf.new)
        (sink_seen O.given O.faults out.old out.new)) }
    ensures ended { IfOk result IsEnd }
    ensures fault { IfErr result (λ fault. Stands (C.task command)
        (shelf_seen S.tells S.held S.written S.faults shelf.old shelf.new)
        (sink_seen O.given O.faults out.old out.new) fault (O.given out.new)) }

    // Where no fault stands in the texts, and no count rises, it wants memory.
    ensures complete { IfErr result (λ fault. Completes (C.task command)
        (shelf_seen S.tells S.held S.written S.faults shelf.old shelf.new)
        (sink_seen O.given O.faults out.old out.new) (status_of fault)) }
    ensures keeps { Keeps (λ name. IsOneOf name (C.task command).writes)
        (shelf_seen S.tells S.held S.written S.faults shelf.old shelf.new)
        (sink_seen O.given O.faults out.old out.new) }
{
    let texts = read_with_library(alloc, shelf, reads, library)?;
    let made = made_of(alloc, command, texts)?;
    give(shelf, out, writes, puts, made)
}
