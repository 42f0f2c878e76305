ghost use Rattle.command_edges.specs.Libraries.{name_of};
ghost use Rattle.insert_command.specs.StatusTasks.{status_task};

use crate::status::inserted_texts::inserted;
use crate::status::laws::status_faults_stand_apart;
use command_edges::{Made, TextCommand, take_three};
use command_faults::Fault;
use std::alloc::Global;
use texts::Text;

/// Builds the test logic of the plan that lies under one name, and the registers that lie under another, into the
/// netlist that lies under a third, with the library that lies under a fourth if there is one; writes the netlist's
/// text and the device's, and puts the report.
#[derive(Clone, Copy)]
pub struct InsertStatus<'a> {
    pub netlist: &'a str,
    pub plan: &'a str,
    pub registers: &'a str,
    pub outnet: &'a str,
    pub outbsdl: &'a str,
    pub library: Option<&'a str>,
}

impl TextCommand for InsertStatus<'_> {
    ghost task = { λ c. status_task c.netlist.now c.plan.now c.registers.now c.outnet.now c.outbsdl.now (name_of c.library) };

    fn make<'a>(self, alloc: Global, texts: &mut [Text]) -> Result<Made, Fault<'a>> {
        // A law that the proof uses.
        status_faults_stand_apart();
        let (net, plan, registers, library) = take_three(alloc, texts)?;
        inserted(alloc, net, plan, registers, library)
    }
}
