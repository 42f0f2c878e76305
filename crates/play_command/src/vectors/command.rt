ghost use Rattle.play_command.specs.VectorsTasks.{vectors_task};

use crate::vectors::program_texts::program_text;
use command_edges::{Made, TextCommand, take_one};
use command_faults::{Fault, Status};
use std::alloc::Global;
use texts::{Row, Text};

/// Writes the program of the device whose BSDL text lies under one name, under another.
#[derive(Clone, Copy)]
pub struct Vectors<'a> {
    pub bsdl: &'a str,
    pub output: &'a str,
}

impl TextCommand for Vectors<'_> {
    ghost task = { λ c. vectors_task c.bsdl.now c.output.now };

    fn make<'a>(self, alloc: Global, texts: &mut [Text]) -> Result<Made, Fault<'a>> {
        let text = take_one(alloc, texts);
        let program = program_text(alloc, text)?;
        let mut outputs = Row::new(alloc);
        outputs.push(program)?;
        Ok(Made {
            outputs,
            put: Text::new(alloc),
            status: Status::Done,
        })
    }
}
