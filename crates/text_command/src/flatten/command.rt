ghost use Rattle.command_edges.specs.Libraries.{name_of};
ghost use Rattle.text_command.specs.FlattenTasks.{flatten_task};

use crate::flatten::flat_texts::flattened;
use box_texts::texts_of_boxes_are_spelled_or_at_fault;
use command_edges::{Made, TextCommand, take_first};
use command_faults::{Fault, Status};
use std::alloc::Global;
use texts::{Row, Text};

/// Reads the modules that lie under one name, with the library that lies under another if there is one, and writes
/// under a third the flat module of the module that `top` names.
#[derive(Clone, Copy)]
pub struct Flatten<'a> {
    pub input: &'a str,
    pub top: &'a str,
    pub output: &'a str,
    pub library: Option<&'a str>,
}

impl TextCommand for Flatten<'_> {
    ghost task = { λ c. flatten_task c.input.now c.top.now c.output.now (name_of c.library) };

    fn make<'a>(self, alloc: Global, texts: &mut [Text]) -> Result<Made, Fault<'a>> {
        // A law that the proof uses.
        texts_of_boxes_are_spelled_or_at_fault();
        let (text, library) = take_first(alloc, texts)?;
        let printed = flattened(alloc, text, self.top, &library.cells)?;
        let mut outputs = Row::new(alloc);
        outputs.push(printed)?;
        Ok(Made {
            outputs,
            put: Text::new(alloc),
            status: Status::Done,
        })
    }
}
