ghost use Rattle.std.specs.Prelude.{◌<◌};
ghost use Rattle.insert_command.specs.Demonstrations.{demo_task};

use crate::demo::demo_texts::{inserted_demo, line_text};
use crate::written_and_put;
use command_edges::{Made, TextCommand};
use command_faults::Fault;
use demo_chips::netlists::{demo_can_be_linked, demo_is_a_tree};
use std::alloc::Global;
use texts::Text;

/// Makes the demonstration netlist of a number, builds the test logic of the demonstration plan into it, writes the
/// netlist's text and the device's, and puts one line.
#[derive(Clone, Copy)]
pub struct Demo<'a> {
    pub number: u32,
    pub outnet: &'a str,
    pub outbsdl: &'a str,
    ghost small: { number < 10000 },
}

impl TextCommand for Demo<'_> {
    ghost task = { λ c. demo_task c.number c.outnet.now c.outbsdl.now };

    fn make<'a>(self, alloc: Global, _texts: &mut [Text]) -> Result<Made, Fault<'a>> {
        // Laws that the proof uses.
        demo_is_a_tree();
        demo_can_be_linked();
        let inserted = inserted_demo(alloc, self.number)?;
        let line = line_text(alloc, self.number)?;
        Ok(written_and_put(alloc, inserted.verilog, inserted.bsdl, line)?)
    }
}
