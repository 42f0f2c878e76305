// From texts that were read to texts to be written.
ghost use Rattle.std.specs.Prelude.{◌≡◌, IfErr, IfOk};
ghost use Rattle.insert_command.specs.StatusFaults.{fault_of, StandsInInputs};
ghost use Rattle.insert_command.specs.StatusTasks.{IsInserted};

use crate::written_and_put;
use cell_library::Library;
use command_edges::Made;
use command_faults::Fault;
use status_insertions::insert_status;
use status_insertions::lower_status_inputs::StatusInsertFault;
use std::alloc::Global;
use texts::Text;

// The fault of a command, for one of inserting with registers.
fn fault_of<'a>(fault: StatusInsertFault) -> Fault<'a>
    ensures { result ≡ fault_of fault }
{
    match fault {
        StatusInsertFault::Insert(fault) => crate::fault_of(fault),
        StatusInsertFault::Registers(fault) => Fault::Registers(fault),
    }
}

/// Builds the test logic of the plan that one text spells, and the registers that another spells, into the netlist that
/// a third spells with this library.
pub fn inserted<'a>(
    alloc: Global,
    net: Text,
    plan: Text,
    registers: Text,
    library: Library,
) -> Result<Made, Fault<'a>>
    ensures made { IfOk result (λ made.
        IsInserted library net plan registers made.outputs made.put made.status) }
    ensures fault { IfErr result (StandsInInputs library net plan registers) }
{
    match insert_status(alloc, net, plan.as_bytes(), registers.as_bytes(), library) {
        Ok(made) => Ok(written_and_put(alloc, made.verilog, made.bsdl, made.report)?),
        Err(fault) => Err(fault_of(fault)),
    }
}
