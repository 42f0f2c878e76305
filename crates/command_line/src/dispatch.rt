ghost use Rattle.command_edges.specs.Seen.{shelf_seen, sink_seen};
ghost use Rattle.command_line.specs.Outcomes.{CameTo};
ghost use Rattle.command_line.specs.Parsed.{form_of};
ghost use Rattle.command_line.specs.Tasks.{task_of};

use crate::command::Command;
use crate::files::FileTask;
use crate::names::same_name;
use command_edges::run_task;
use command_faults::{Fault, Status};
use edge_io::shelf::Shelf;
use edge_io::sink::Sink;
use play_command::sim::simulate;
use std::alloc::Global;

// Runs a task on the files that it says, up to its fault. An output that has the name of another file is the first.
fn run_files<'a, C: FileTask<'a>, S: Shelf, O: Sink>(
    alloc: Global,
    shelf: &mut S,
    out: &mut O,
    task: C,
) -> Result<Status, Fault<'a>>
    ensures { CameTo (C.task task)
        (shelf_seen S.tells S.held S.written S.faults shelf.old shelf.new)
        (sink_seen O.given O.faults out.old out.new) result }
{
    let files = task.files();
    let reads = files.reads.as_slice();
    let writes = files.writes.as_slice();
    match same_name(reads, files.library, writes) {
        Some(name) => Err(Fault::SameName { name }),
        None => run_task(
            alloc,
            shelf,
            out,
            task,
            reads,
            files.library,
            writes,
            files.puts,
        ),
    }
}

/// Runs a command, up to its fault.
pub fn run_command<'a, S: Shelf, O: Sink>(
    alloc: Global,
    shelf: &mut S,
    out: &mut O,
    command: Command<'a>,
) -> Result<Status, Fault<'a>>
    ensures { CameTo (task_of (form_of command.entry))
        (shelf_seen S.tells S.held S.written S.faults shelf.old shelf.new)
        (sink_seen O.given O.faults out.old out.new) result }
{
    match command {
        Command::Convert(task) => run_files(alloc, shelf, out, task),
        Command::StatusBsdl(task) => run_files(alloc, shelf, out, task),
        Command::Flatten(task) => run_files(alloc, shelf, out, task),
        Command::Sim {
            netlist,
            events,
            library,
        } => simulate(alloc, shelf, out, netlist, events, library),
        Command::Insert(task) => run_files(alloc, shelf, out, task),
        Command::InsertStatus(task) => run_files(alloc, shelf, out, task),
        Command::Strip(task) => run_files(alloc, shelf, out, task),
        Command::Vectors(task) => run_files(alloc, shelf, out, task),
        Command::Check(task) => run_files(alloc, shelf, out, task),
        Command::Demo(task) => run_files(alloc, shelf, out, task),
    }
}
