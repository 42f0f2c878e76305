ghost use Rattle.text_command.specs.ConvertTasks.{convert_task};

use crate::convert::canonical_texts::converted;
use crate::convert::conversion::Conversion;
use command_edges::{Made, TextCommand, take_one};
use command_faults::{Fault, Status};
use std::alloc::Global;
use texts::{Row, Text};

/// Reads the text that lies under one name, and writes what the conversion makes of it under another.
#[derive(Clone, Copy)]
pub struct Convert<'a> {
    pub conversion: Conversion,
    pub input: &'a str,
    pub output: &'a str,
}

impl TextCommand for Convert<'_> {
    ghost task = { λ c. convert_task c.conversion c.input.now c.output.now };

    fn make<'a>(self, alloc: Global, texts: &mut [Text]) -> Result<Made, Fault<'a>> {
        let text = take_one(alloc, texts);
        let printed = converted(alloc, self.conversion, text)?;
        let mut outputs = Row::new(alloc);
        outputs.push(printed)?;
        Ok(Made {
            outputs,
            put: Text::new(alloc),
            status: Status::Done,
        })
    }
}
