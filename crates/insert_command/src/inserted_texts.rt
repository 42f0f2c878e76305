// From texts that were read to texts to be written.
ghost use Rattle.std.specs.Prelude.{◌≡◌, [], ◌∷◌, IfErr, IfOk};
ghost use Rattle.command_faults.specs.declared.status.Status.{Status};
ghost use Rattle.insert_command.specs.Faults.{fault_of, StandsInInputs};
ghost use Rattle.insert_command.specs.Tasks.{IsInserted};

use cell_library::Library;
use command_edges::Made;
use command_faults::{Fault, Status};
use status_insertions::lower_insertion_inputs::InsertFault;
use status_insertions::lower_insertions::insert_texts;
use std::alloc::Global;
use texts::{OutOfMemory, Row, Text};

/// The fault of a command, for one of inserting.
pub fn fault_of<'a>(fault: InsertFault) -> Fault<'a>
    ensures { result ≡ fault_of fault }
{
    match fault {
        InsertFault::Netlist(fault) => Fault::Netlist(fault),
        InsertFault::Link(fault) => Fault::Link(fault),
        InsertFault::Plan(fault) => Fault::Plan(fault),
        InsertFault::Fit(fault) => Fault::Fit(fault),
        InsertFault::TooMany { what, count, limit } => Fault::TooMany { what, count, limit },
        InsertFault::OutOfMemory => Fault::OutOfMemory,
    }
}

/// The texts of a netlist and of its device, to be written, and a text to be put.
pub fn written_and_put(
    alloc: Global,
    verilog: Text,
    bsdl: Text,
    put: Text,
) -> Result<Made, OutOfMemory>
    ensures outputs { IfOk result (λ made. made.outputs ≡ verilog ∷ bsdl ∷ []) }
    ensures put { IfOk result (λ made. made.put ≡ put) }
    ensures done { IfOk result (λ made. made.status ≡ Status.Done) }
{
    let mut outputs = Row::new(alloc);
    outputs.push(verilog)?;
    outputs.push(bsdl)?;
    Ok(Made {
        outputs,
        put,
        status: Status::Done,
    })
}

/// Builds the test logic of the plan that one text spells into the netlist that the other spells with this library.
pub fn inserted<'a>(
    alloc: Global,
    net: Text,
    plan: Text,
    library: Library,
) -> Result<Made, Fault<'a>>
    ensures made { IfOk result (λ made.
        IsInserted library net plan made.outputs made.put made.status) }
    ensures fault { IfErr result (StandsInInputs library net plan) }
{
    match insert_texts(alloc, net, plan.as_bytes(), library) {
        Ok(made) => Ok(written_and_put(alloc, made.verilog, made.bsdl, made.report)?),
        Err(fault) => Err(fault_of(fault)),
    }
}
