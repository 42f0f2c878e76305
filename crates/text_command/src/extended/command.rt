ghost use Rattle.text_command.specs.ExtendedTasks.{statusbsdl_task};

use crate::extended::canonical_text::shown;
use command_edges::{Made, TextCommand, take_one};
use command_faults::{Fault, Status};
use std::alloc::Global;
use texts::{Row, Text};

/// Reads the BSDL text that lies under one name, and writes its canonical text under another. The device may have
/// registers of its own.
#[derive(Clone, Copy)]
pub struct StatusBsdl<'a> {
    pub input: &'a str,
    pub output: &'a str,
}

impl TextCommand for StatusBsdl<'_> {
    ghost task = { λ c. statusbsdl_task c.input.now c.output.now };

    fn make<'a>(self, alloc: Global, texts: &mut [Text]) -> Result<Made, Fault<'a>> {
        let text = take_one(alloc, texts);
        let printed = shown(alloc, text)?;
        let mut outputs = Row::new(alloc);
        outputs.push(printed)?;
        Ok(Made {
            outputs,
            put: Text::new(alloc),
            status: Status::Done,
        })
    }
}
