ghost use Rattle.std.specs.Prelude.{◌≡◌};
ghost use Rattle.command_edges.specs.Ends.{IsEnd, run_status};
ghost use Rattle.command_edges.specs.Libraries.{name_of};
ghost use Rattle.play_command.specs.CheckTasks.{check_task};

use crate::check::check_texts::checked;
use cell_text::texts_of_libraries_are_spelled_or_at_fault;
use command_edges::{Made, TextCommand, take_three};
use command_faults::{Fault, Status};
use netlist_link::faults_forbid_links;
use scan_vectors::texts_of_events_are_spelled_or_at_fault;
use std::alloc::Global;
use texts::{Row, Text};

// The status at the end of a check in which so many expectations aren't met.
fn status_after(missed: usize) -> Status
    ensures status { result ≡ run_status missed }
    ensures end { IsEnd result }
{
    if missed == 0 {
        Status::Done
    } else {
        Status::Missed
    }
}

/// Checks the netlist that lies under one name by the device whose BSDL text lies under another and the events that lie
/// under a third, with the library that lies under a fourth if there is one, and puts what comes of it. The status is
/// `Done`, or `Missed` where an expectation isn't met.
#[derive(Clone, Copy)]
pub struct Check<'a> {
    pub netlist: &'a str,
    pub bsdl: &'a str,
    pub events: &'a str,
    pub library: Option<&'a str>,
}

impl TextCommand for Check<'_> {
    ghost task = { λ c. check_task c.netlist.now c.bsdl.now c.events.now (name_of c.library) };

    fn make<'a>(self, alloc: Global, texts: &mut [Text]) -> Result<Made, Fault<'a>> {
        // Laws that the proof uses.
        faults_forbid_links();
        texts_of_events_are_spelled_or_at_fault();
        texts_of_libraries_are_spelled_or_at_fault();
        let (net, text, events, library) = take_three(alloc, texts)?;
        let checked = checked(alloc, net, text, events, library)?;
        Ok(Made {
            outputs: Row::new(alloc),
            put: checked.text,
            status: status_after(checked.missed),
        })
    }
}
