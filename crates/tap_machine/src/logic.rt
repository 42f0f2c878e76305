// What a device fixes of its test logic.

ghost use Rattle.std.specs.Prelude.{◌≡◌, length, map, IfOk};
ghost use Rattle.test_logic.specs.Machine.{code_bits, user_bits, test_logic_of};
ghost use Rattle.tap_machine.specs.Views.{LatchesWhole, IsLogic, logic_of};

use crate::opcodes::reset_opcode;
use crate::patterns::{bits_of, pattern};
use bsdl_device::{CellRow, Device};
use cell_library::{BoundaryKind, Opcode};
use signal_values::Sig;
use std::alloc::Global;
use texts::OutOfMemory;

/// What a device says of its test logic, which no event changes.
#[derive(Drop)]
pub struct Logic {
    pub opcodes: Vec<Opcode>,
    // The pattern that the instruction register captures, and the opcode that reset latches.
    pub capture: Vec<Sig>,
    pub reset_opcode: Vec<Sig>,
    // The code of the identification register, if there is one, and what it captures under USERCODE.
    pub code: Vec<Sig>,
    pub user: Vec<Sig>,
    pub kinds: Vec<BoundaryKind>,
}

fn code_of(alloc: Global, idcode: Option<u32>) -> Result<Vec<Sig>, OutOfMemory>
    ensures { IfOk result (λ bits. bits.items ≡ code_bits idcode) }
{
    match idcode {
        Some(code) => bits_of(alloc, 32, code),
        None => Ok(Vec::new(alloc)),
    }
}

fn user_of(
    alloc: Global,
    idcode: Option<u32>,
    usercode: Option<u32>,
) -> Result<Vec<Sig>, OutOfMemory>
    ensures bits { IfOk result (λ bits. bits.items ≡ user_bits idcode usercode) }
    ensures len { IfOk result (λ bits. length bits.items ≡ length (code_bits idcode)) }
{
    match (idcode, usercode) {
        (None, _) => Ok(Vec::new(alloc)),
        (Some(_), Some(user)) => bits_of(alloc, 32, user),
        (Some(code), None) => bits_of(alloc, 32, code),
    }
}

fn kinds_of(alloc: Global, cells: &[CellRow]) -> Result<Vec<BoundaryKind>, OutOfMemory>
    ensures { IfOk result (λ kinds. kinds.items ≡ map (λ row. row.cell) cells.now) }
{
    let kinds = cells.iter().map(|row| row.cell).collect(alloc)?;
    Ok(kinds)
}

impl Logic {
    /// The test logic of a device.
    pub fn new(alloc: Global, device: &Device) -> Result<Logic, OutOfMemory>
        requires { LatchesWhole device.now }
        ensures logic { IfOk result (λ l. logic_of l ≡ test_logic_of device.now) }
        ensures sound { IfOk result (λ l. IsLogic l) }
    {
        let opcodes = device.opcodes.as_slice();
        Ok(Logic {
            opcodes: Vec::from_slice(alloc, opcodes)?,
            capture: pattern(alloc, device.capture)?,
            reset_opcode: reset_opcode(alloc, opcodes)?,
            code: code_of(alloc, device.idcode)?,
            user: user_of(alloc, device.idcode, device.usercode)?,
            kinds: kinds_of(alloc, device.cells.as_slice())?,
        })
    }
}
