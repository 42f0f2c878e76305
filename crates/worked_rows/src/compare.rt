use crate::held::Held;
use crate::row::{Content, Run};
use command_faults::Status;
use command_line::{WordList, run_tool};
use edge_io::{MemShelf, MemSink};
use std::alloc::Global;
use std::fmt;
use texts::OutOfMemory;

/// Something that a run came to and should not.
#[derive(Drop)]
pub(crate) enum Difference<'a> {
    Status { got: u8 },
    Given { got: String },
    Held { name: &'a str },
    Written { name: &'a str, got: Option<String> },
}

impl fmt::Display for Difference<'_> {
    fn fmt<W: fmt::Write>(&self, f: &mut fmt::Formatter<W>) -> fmt::Result {
        match self {
            Difference::Status { got } => write!(f, "status {got}"),
            Difference::Given { got } => write!(f, "gives {got:?}"),
            Difference::Held { name } => write!(f, "holds {name} no more"),
            Difference::Written {
                name,
                got: Some(got),
            } => write!(f, "writes {name} {got:?}"),
            Difference::Written { name, got: None } => write!(f, "writes no {name}"),
        }
    }
}

/// A run of a command over the texts that are held.
#[derive(Clone, Copy)]
pub(crate) struct Trial<'a> {
    pub(crate) words: &'a WordList,
    pub(crate) held: &'a Held<'a>,
    pub(crate) run: &'a Run,
}

/// What a run came to.
#[derive(Drop)]
pub(crate) struct Outcome {
    status: Status,
    shelf: MemShelf,
    sink: MemSink,
}

impl Outcome {
    /// Runs a command over a shelf and a sink that fail as the run says.
    pub(crate) fn of(alloc: Global, trial: Trial) -> Result<Outcome, OutOfMemory> {
        let mut shelf = shelf_of(alloc, trial.held, trial.run)?;
        let mut sink = sink_of(alloc, trial.run)?;
        let status = run_tool(alloc, trial.words, &mut shelf, &mut sink);
        Ok(Outcome {
            status,
            shelf,
            sink,
        })
    }

    /// Where it isn't as the run wants it.
    pub(crate) fn differences<'a>(
        &self,
        alloc: Global,
        trial: Trial<'a>,
    ) -> Result<Vec<Difference<'a>>, OutOfMemory> {
        let mut found = Vec::new(alloc);
        let got = self.status.exit_number();
        if got != trial.run.status {
            found.push(Difference::Status { got })?;
        }
        if !is_given(self.sink.given(), trial.run) {
            let got = String::from_utf8_lossy(alloc, self.sink.given())?;
            found.push(Difference::Given { got })?;
        }
        if let Some(name) = trial.held.first_lost(&self.shelf) {
            found.push(Difference::Held { name })?;
        }
        self.add_unwritten(alloc, trial, &mut found)?;
        Ok(found)
    }

    // Adds the outputs that differ: those with room, and those that must be written.
    fn add_unwritten<'a>(
        &self,
        alloc: Global,
        trial: Trial<'a>,
        found: &mut Vec<Difference<'a>>,
    ) -> Result<(), OutOfMemory> {
        for room in trial.run.rooms.iter() {
            self.add_if_unlike(alloc, room.name.as_str(), trial, found)?;
        }
        for file in trial.run.written.iter() {
            self.add_if_unlike(alloc, file.name.as_str(), trial, found)?;
        }
        Ok(())
    }

    fn add_if_unlike<'a>(
        &self,
        alloc: Global,
        name: &'a str,
        trial: Trial<'a>,
        found: &mut Vec<Difference<'a>>,
    ) -> Result<(), OutOfMemory> {
        let written = self.shelf.written_of(name);
        if is_as_wanted(written, trial.run.content_of(name), trial.held) {
            return Ok(());
        }
        let got = match written {
            Some(bytes) => Some(String::from_utf8_lossy(alloc, bytes)?),
            None => None,
        };
        found.push(Difference::Written { name, got })?;
        Ok(())
    }

    /// Holds from now on what the run keeps of the outputs.
    pub(crate) fn keep(
        &self,
        alloc: Global,
        run: &Run,
        held: &mut Held,
    ) -> Result<(), OutOfMemory> {
        for name in run.kept.iter() {
            if let Some(bytes) = self.shelf.written_of(name.as_str()) {
                held.keep(alloc, name.as_str(), bytes)?;
            }
        }
        Ok(())
    }
}

// Whether the sink got what the run wants.
fn is_given(given: &[u8], run: &Run) -> bool {
    match &run.last_line {
        Some(line) => ends_in_line(given, line.as_str().as_bytes()),
        None => given == run.given.as_bytes(),
    }
}

// Whether the last line of a text is this one.
fn ends_in_line(text: &[u8], line: &[u8]) -> bool {
    let Some(lines) = text.strip_suffix(b"\n") else {
        return false;
    };
    match lines.strip_suffix(line) {
        Some(before) => before.is_empty() || before.ends_with(b"\n"),
        None => false,
    }
}

// Whether what was written under a name is what must be written there.
fn is_as_wanted(written: Option<&[u8]>, wanted: Option<&Content>, held: &Held) -> bool {
    match (written, wanted) {
        (Some(bytes), Some(content)) => is_content(bytes, content, held),
        (None, None) => true,
        _ => false,
    }
}

fn is_content(bytes: &[u8], content: &Content, held: &Held) -> bool {
    match content {
        Content::Text(text) => bytes == text.as_bytes(),
        Content::Any => true,
        Content::Held(name) => held.text_of(name.as_str()) == Some(bytes),
        Content::Front(name, count) => match held.text_of(name.as_str()) {
            Some(text) => bytes.len() == *count && text.starts_with(bytes),
            None => false,
        },
    }
}

fn shelf_of(alloc: Global, held: &Held, run: &Run) -> Result<MemShelf, OutOfMemory> {
    let mut shelf = MemShelf::new(alloc);
    held.place_on(&mut shelf)?;
    for room in run.rooms.iter() {
        shelf.make_room(room.name.as_str(), room.bytes)?;
    }
    for call in run.fails.iter() {
        shelf.fail_call(*call)?;
    }
    Ok(shelf)
}

fn sink_of(alloc: Global, run: &Run) -> Result<MemSink, OutOfMemory> {
    let mut sink = MemSink::new(alloc);
    sink.make_room(run.sink_room)?;
    for call in run.put_fails.iter() {
        sink.fail_call(*call)?;
    }
    Ok(sink)
}
