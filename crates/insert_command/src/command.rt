ghost use Rattle.command_edges.specs.Libraries.{name_of};
ghost use Rattle.insert_command.specs.Tasks.{insert_task};

use crate::inserted_texts::inserted;
use crate::laws::insertion_faults_stand_apart;
use command_edges::{Made, TextCommand, take_two};
use command_faults::Fault;
use std::alloc::Global;
use texts::Text;

/// Builds the test logic of the plan that lies under one name into the netlist that lies under another, with the
/// library that lies under a third if there is one; writes the netlist's text and the device's, and puts the report.
#[derive(Clone, Copy)]
pub struct Insert<'a> {
    pub netlist: &'a str,
    pub plan: &'a str,
    pub outnet: &'a str,
    pub outbsdl: &'a str,
    pub library: Option<&'a str>,
}

impl TextCommand for Insert<'_> {
    ghost task = { λ c. insert_task c.netlist.now c.plan.now c.outnet.now c.outbsdl.now (name_of c.library) };

    fn make<'a>(self, alloc: Global, texts: &mut [Text]) -> Result<Made, Fault<'a>> {
        // A law that the proof uses.
        insertion_faults_stand_apart();
        let (net, plan, library) = take_two(alloc, texts)?;
        inserted(alloc, net, plan, library)
    }
}
