ghost use Rattle.command_edges.specs.Libraries.{name_of};
ghost use Rattle.strip_command.specs.Tasks.{strip_task};

use crate::laws::stripping_faults_stand_apart;
use crate::stripped_texts::stripped;
use command_edges::{Made, TextCommand, take_two};
use command_faults::Fault;
use std::alloc::Global;
use texts::Text;

/// Takes the netlist with test logic that lies under one name and the BSDL text that lies under another, with
/// the library that lies under a third if there is one; writes the texts of the netlist and of a plan that
/// they were made from.
#[derive(Clone, Copy)]
pub struct Strip<'a> {
    pub netlist: &'a str,
    pub bsdl: &'a str,
    pub outnet: &'a str,
    pub outplan: &'a str,
    pub library: Option<&'a str>,
}

impl TextCommand for Strip<'_> {
    ghost task = { λ c. strip_task c.netlist.now c.bsdl.now c.outnet.now c.outplan.now (name_of c.library) };

    fn make<'a>(self, alloc: Global, texts: &mut [Text]) -> Result<Made, Fault<'a>> {
        // A law that the proof uses.
        stripping_faults_stand_apart();
        let (net, bsdl, library) = take_two(alloc, texts)?;
        stripped(alloc, net, bsdl, library)
    }
}
