use crate::line::LineFault;
use command_line::WordList;
use std::alloc::Global;
use texts::{OutOfMemory, Text};

/// The room of an output, or of the sink, for which no line says another.
const ROOM: u64 = 100_000;

/// A text and its name.
#[derive(Drop)]
pub(crate) struct NamedText {
    pub(crate) name: String,
    pub(crate) text: Text,
}

impl NamedText {
    /// The empty text of this name.
    pub(crate) fn new(alloc: Global, name: &str) -> Result<NamedText, OutOfMemory> {
        Ok(NamedText {
            name: String::from_str(alloc, name)?,
            text: Text::new(alloc),
        })
    }
}

/// How many bytes the output of a name has room for.
#[derive(Drop)]
pub(crate) struct Room {
    pub(crate) name: String,
    pub(crate) bytes: u64,
}

/// What must be written under a name.
#[derive(Drop)]
pub(crate) enum Content {
    /// This text.
    Text(Text),
    /// Any text.
    Any,
    /// The text that is held under this name.
    Held(String),
    /// So many bytes, the front of the text that is held under this name.
    Front(String, usize),
}

/// An output that must be written.
#[derive(Drop)]
pub(crate) struct Written {
    pub(crate) name: String,
    pub(crate) content: Content,
}

/// What fails in one run of a row, and what it must come to.
#[derive(Drop)]
pub(crate) struct Run {
    /// The numbers of the shelf's calls that fail.
    pub(crate) fails: Vec<u64>,
    /// The numbers of the sink's calls that fail.
    pub(crate) put_fails: Vec<u64>,
    /// The outputs that have room; where none is listed, each word of the command after the first has the usual room.
    pub(crate) rooms: Vec<Room>,
    pub(crate) sink_room: u64,
    pub(crate) status: u8,
    pub(crate) given: Text,
    /// The last line of what the sink must have got, where the row doesn't say all of it.
    pub(crate) last_line: Option<String>,
    pub(crate) written: Vec<Written>,
    /// The outputs that are held for the runs that come after.
    pub(crate) kept: Vec<String>,
}

impl Run {
    /// A run in which nothing fails, and which ends with status 0, gives nothing and writes nothing.
    pub(crate) fn new(alloc: Global) -> Run {
        Run {
            fails: Vec::new(alloc),
            put_fails: Vec::new(alloc),
            rooms: Vec::new(alloc),
            sink_room: ROOM,
            status: 0,
            given: Text::new(alloc),
            last_line: None,
            written: Vec::new(alloc),
            kept: Vec::new(alloc),
        }
    }

    /// Lists an output that has room.
    pub(crate) fn add_room(
        &mut self,
        alloc: Global,
        name: &str,
        bytes: u64,
    ) -> Result<(), OutOfMemory> {
        let name = String::from_str(alloc, name)?;
        self.rooms.push(Room { name, bytes })?;
        Ok(())
    }

    // Lists each of these words but the first, where no output is listed.
    fn add_usual_rooms(&mut self, alloc: Global, words: &[String]) -> Result<(), OutOfMemory> {
        if !self.rooms.is_empty() {
            return Ok(());
        }
        for word in words.iter().skip(1) {
            self.add_room(alloc, word.as_str(), ROOM)?;
        }
        Ok(())
    }

    /// Adds an output that must be written.
    pub(crate) fn add_written(
        &mut self,
        alloc: Global,
        name: &str,
        content: Content,
    ) -> Result<(), OutOfMemory> {
        let name = String::from_str(alloc, name)?;
        self.written.push(Written { name, content })?;
        Ok(())
    }

    /// Adds an output that must be the text that is held under a name.
    pub(crate) fn add_same(
        &mut self,
        alloc: Global,
        name: &str,
        held: &str,
    ) -> Result<(), OutOfMemory> {
        let held = String::from_str(alloc, held)?;
        self.add_written(alloc, name, Content::Held(held))
    }

    /// Adds an output that must be so many bytes, the front of the text that is held under a name.
    pub(crate) fn add_front(
        &mut self,
        alloc: Global,
        name: &str,
        held: &str,
        bytes: usize,
    ) -> Result<(), OutOfMemory> {
        let held = String::from_str(alloc, held)?;
        self.add_written(alloc, name, Content::Front(held, bytes))
    }

    /// Says how the last line must read of what the sink gets.
    pub(crate) fn set_last_line(&mut self, alloc: Global, line: &str) -> Result<(), OutOfMemory> {
        self.last_line = Some(String::from_str(alloc, line)?);
        Ok(())
    }

    /// Adds an output that is held for the runs that come after.
    pub(crate) fn add_kept(&mut self, alloc: Global, name: &str) -> Result<(), OutOfMemory> {
        self.kept.push(String::from_str(alloc, name)?)?;
        Ok(())
    }

    /// What must be written under a name, if anything.
    pub(crate) fn content_of(&self, name: &str) -> Option<&Content> {
        for file in self.written.iter() {
            if file.name.as_str() == name {
                return Some(&file.content);
            }
        }
        None
    }

    // The text that must be written under the name that was added last.
    fn last_text(&mut self) -> Option<&mut Text> {
        match &mut self.written.last_mut()?.content {
            Content::Text(text) => Some(text),
            _ => None,
        }
    }
}

/// A command and its runs.
#[derive(Drop)]
pub(crate) struct Command {
    pub(crate) words: WordList,
    pub(crate) runs: Vec<Run>,
}

impl Command {
    fn new(alloc: Global) -> Command {
        Command {
            words: WordList::new(alloc),
            runs: Vec::new(alloc),
        }
    }

    // Adds words that blanks part.
    fn add_words(&mut self, words: &str) -> Result<(), OutOfMemory> {
        for word in words.split_whitespace() {
            self.words.push(word)?;
        }
        Ok(())
    }
}

/// The texts that commands find, and the commands in the order in which they run.
#[derive(Drop)]
pub(crate) struct Row {
    /// The number of its first line in the table, from 1.
    pub(crate) number: usize,
    pub(crate) held: Vec<NamedText>,
    pub(crate) commands: Vec<Command>,
}

impl Row {
    /// A row without texts, whose command has no words and no runs.
    pub(crate) fn new(alloc: Global, number: usize) -> Result<Row, OutOfMemory> {
        let mut commands = Vec::new(alloc);
        commands.push(Command::new(alloc))?;
        Ok(Row {
            number,
            held: Vec::new(alloc),
            commands,
        })
    }

    /// Whether its last command has a run.
    pub(crate) fn is_whole(&self) -> bool {
        match self.commands.last() {
            Some(command) => !command.runs.is_empty(),
            None => false,
        }
    }

    /// Adds words to its last command, or begins one with them where that has a run.
    pub(crate) fn add_words(&mut self, alloc: Global, words: &str) -> Result<(), LineFault> {
        if self.is_whole() {
            self.commands.push(Command::new(alloc))?;
        }
        let command = self.commands.last_mut().ok_or(LineFault::BadLine)?;
        Ok(command.add_words(words)?)
    }

    /// Adds a run of its last command, and the rooms that the run has where it lists none.
    pub(crate) fn add_run(&mut self, alloc: Global, mut run: Run) -> Result<(), LineFault> {
        let command = self.commands.last_mut().ok_or(LineFault::BadLine)?;
        run.add_usual_rooms(alloc, command.words.as_slice())?;
        command.runs.push(run)?;
        Ok(())
    }

    /// The text that was held last.
    pub(crate) fn last_held(&mut self) -> Option<&mut Text> {
        Some(&mut self.held.last_mut()?.text)
    }

    /// What the sink must have got in the run that was added last.
    pub(crate) fn last_given(&mut self) -> Option<&mut Text> {
        Some(&mut self.last_run()?.given)
    }

    /// The text that must be written under the name that was added last.
    pub(crate) fn last_written(&mut self) -> Option<&mut Text> {
        self.last_run()?.last_text()
    }

    /// The run that was added last, if its last command has one.
    pub(crate) fn last_run(&mut self) -> Option<&mut Run> {
        self.commands.last_mut()?.runs.last_mut()
    }
}
