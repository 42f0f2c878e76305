// The nets that words name.
ghost use Rattle.std.specs.Prelude.{◌≡◌, IfErr, IfOk, length};
ghost use Rattle.list_laws.specs.Lists.{AreAll};
ghost use Rattle.status_fitting.specs.Faults.{words_of};
ghost use Rattle.status_fitting.specs.Fitted.{IsNetOf, IsRegister};
ghost use Rattle.status_fitting.specs.Steps.{HasFewWords, HaveFewWords, IsNetFault, IsWordFault};

use crate::fitted::FittedRegister;
use crate::register_texts::{StatusFault, StatusRow};
use crate::wires::WireTable;
use bsdl_device::registers::TestRegister;
use netlist_model::NetId;
use std::alloc::Global;
use texts::{OutOfMemory, Row, Text};

// The net that a word names.
fn net_of(alloc: Global, wires: &WireTable<'_>, word: &Text) -> Result<NetId, StatusFault>
    ensures net { IfOk result (IsNetOf wires.now word.now) }
    ensures fault { IfErr result (IsWordFault wires.now word.now) }
{
    match wires.driven_named(word.as_bytes()) {
        Some(net) => Ok(net),
        None => Err(StatusFault::StatusNet {
            word: Text::from_bytes(alloc, word.as_bytes())?,
        }),
    }
}

// The nets that words name, in their order.
fn nets_of(alloc: Global, wires: &WireTable<'_>, words: &[Text]) -> Result<Row<NetId>, StatusFault>
    ensures nets { IfOk result (AreAll (IsNetOf wires.now) words.now) }
    ensures fault { IfErr result (IsNetFault wires.now words.now) }
{
    let mut nets = Row::new(alloc);
    for word in words {
        match net_of(alloc, wires, word) {
            Ok(net) => nets.push(net)?,
            Err(fault) => return Err(fault),
        }
    }
    Ok(nets)
}

// The register that a line is of, beside its nets.
fn register_of(alloc: Global, row: &StatusRow) -> Result<TestRegister, OutOfMemory>
    requires { HasFewWords row.now }
    ensures { IfOk result (λ register. register ≡ record {
      name = row.now.name;
      instr = row.now.instr;
      bits = row.now.bits;
      length = length row.now.words;
    }) }
{
    Ok(TestRegister {
        name: Text::from_bytes(alloc, row.name.as_bytes())?,
        instr: Text::from_bytes(alloc, row.instr.as_bytes())?,
        bits: row.bits,
        length: row.words.len() as u32,
    })
}

// What a line's register is fitted to.
fn fit_row(
    alloc: Global,
    wires: &WireTable<'_>,
    row: &StatusRow,
) -> Result<FittedRegister, StatusFault>
    requires { HasFewWords row.now }
    ensures register { IfOk result (IsRegister wires.now row.now) }
    ensures fault { IfErr result (IsNetFault wires.now row.now.words) }
{
    match nets_of(alloc, wires, row.words.as_slice()) {
        Ok(nets) => {
            let register = register_of(alloc, row)?;
            Ok(FittedRegister { register, nets })
        }
        Err(fault) => Err(fault),
    }
}

/// What the registers of lines are fitted to, in their order.
pub fn fit_rows(
    alloc: Global,
    wires: &WireTable<'_>,
    rows: &[StatusRow],
) -> Result<Row<FittedRegister>, StatusFault>
    requires { HaveFewWords rows.now }
    ensures registers { IfOk result (AreAll (IsRegister wires.now) rows.now) }
    ensures fault { IfErr result (IsNetFault wires.now (words_of rows.now)) }
{
    let mut registers = Row::new(alloc);
    for row in rows {
        match fit_row(alloc, wires, row) {
            Ok(register) => registers.push(register)?,
            Err(fault) => return Err(fault),
        }
    }
    Ok(registers)
}
