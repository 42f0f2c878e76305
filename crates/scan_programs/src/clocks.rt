// The cycles of TCK of a program.

ghost use Rattle.std.specs.Prelude.{◌≡◌, ◌++◌, IfOk, OnOk};
ghost use Rattle.std.specs.List.{flat_map};
ghost use Rattle.scan_programs.specs.Scans as scans;

use bsdl_device::{Device, Register, selected_register};
use cell_library::{Bits, Opcode};
use std::alloc::Global;
use texts::OutOfMemory;

/// A cycle of TCK: up and down, with these levels of TMS and TDI.
#[derive(Clone, Copy)]
pub struct Clock {
    pub tms: bool,
    pub tdi: bool,
}

fn push_moves(clocks: &mut Vec<Clock>, levels: &[bool]) -> Result<(), OutOfMemory>
    ensures { OnOk result (clocks.new.items ≡ clocks.old.items ++ scans.moves levels.now) }
{
    for tms in levels {
        clocks.push(Clock {
            tms: *tms,
            tdi: false,
        })?;
    }
    Ok(())
}

fn push_shifts(clocks: &mut Vec<Clock>, bits: &[bool]) -> Result<(), OutOfMemory>
    ensures { OnOk result (clocks.new.items ≡ clocks.old.items ++ scans.shifts bits.now) }
{
    for place in 0..bits.len() {
        clocks.push(Clock {
            tms: place + 1 == bits.len(),
            tdi: bits[place],
        })?;
    }
    Ok(())
}

fn push_dr_scan(clocks: &mut Vec<Clock>, bits: &[bool]) -> Result<(), OutOfMemory>
    ensures { OnOk result (clocks.new.items ≡ clocks.old.items ++ scans.dr_scan bits.now) }
{
    push_moves(clocks, &[true, false, false])?;
    push_shifts(clocks, bits)?;
    push_moves(clocks, &[true, false])
}

fn push_ir_scan(clocks: &mut Vec<Clock>, bits: &[bool]) -> Result<(), OutOfMemory>
    ensures { OnOk result (clocks.new.items ≡ clocks.old.items ++ scans.ir_scan bits.now) }
{
    push_moves(clocks, &[true, true, false, false])?;
    push_shifts(clocks, bits)?;
    push_moves(clocks, &[true, false])
}

// The bits of a pattern, the rightmost first.
fn low_bits(alloc: Global, pattern: Bits) -> Result<Vec<bool>, OutOfMemory>
    ensures { IfOk result (λ bits. bits.items ≡ scans.low_bits pattern.len pattern.value) }
{
    let mut bits = Vec::new(alloc);
    let mut rest = pattern.value;
    for _ in 0..pattern.len {
        bits.push(rest % 2 == 1)?;
        rest /= 2;
    }
    Ok(bits)
}

// So many bits in turn, from this one on.
fn alternating(alloc: Global, count: usize, first: bool) -> Result<Vec<bool>, OutOfMemory>
    ensures { IfOk result (λ bits. bits.items ≡ scans.alternating count first) }
{
    let mut bits = Vec::new(alloc);
    let mut next = first;
    for _ in 0..count {
        bits.push(next)?;
        next = !next;
    }
    Ok(bits)
}

fn register_length(device: &Device, register: Register) -> usize
    ensures { result ≡ scans.register_length device.now register }
{
    match register {
        Register::Boundary => device.cells.len(),
        Register::Bypass => 1,
        Register::DeviceId => 32,
    }
}

fn push_ident_scan(
    alloc: Global,
    clocks: &mut Vec<Clock>,
    idcode: Option<u32>,
) -> Result<(), OutOfMemory>
    ensures { OnOk result (clocks.new.items ≡ clocks.old.items ++ scans.ident_scan idcode) }
{
    match idcode {
        None => Ok(()),
        Some(_) => {
            let zeros = vec![in alloc; false; 32]?;
            push_dr_scan(clocks, zeros.as_slice())
        }
    }
}

// The bits in turn and their complement.
fn push_alternating(
    alloc: Global,
    clocks: &mut Vec<Clock>,
    count: usize,
    first: bool,
) -> Result<(), OutOfMemory>
    ensures { OnOk result (clocks.new.items ≡ clocks.old.items
        ++ scans.dr_scan (scans.alternating count first)) }
{
    let bits = alternating(alloc, count, first)?;
    push_dr_scan(clocks, bits.as_slice())
}

fn push_instruction(
    alloc: Global,
    clocks: &mut Vec<Clock>,
    device: &Device,
    opcode: Opcode,
) -> Result<(), OutOfMemory>
    ensures { OnOk result (clocks.new.items ≡ clocks.old.items
        ++ scans.instruction_scans device.now opcode) }
{
    let count = register_length(device, selected_register(opcode.instr));
    let bits = low_bits(alloc, opcode.bits)?;
    push_ir_scan(clocks, bits.as_slice())?;
    push_alternating(alloc, clocks, count, true)?;
    push_alternating(alloc, clocks, count, false)
}

fn push_instructions(
    alloc: Global,
    clocks: &mut Vec<Clock>,
    device: &Device,
    opcodes: &[Opcode],
) -> Result<(), OutOfMemory>
    ensures { OnOk result (clocks.new.items ≡ clocks.old.items
        ++ flat_map (scans.instruction_scans device.now) opcodes.now) }
{
    for opcode in opcodes {
        push_instruction(alloc, clocks, device, *opcode)?;
    }
    Ok(())
}

/// All cycles of the device's program, in order.
#[tactic(auto, using(crate::proofs::Opened::all_clocks_is))]
pub fn all_clocks(alloc: Global, device: &Device) -> Result<Vec<Clock>, OutOfMemory>
    ensures { IfOk result (λ clocks. clocks.items ≡ scans.all_clocks device.now) }
{
    let mut clocks = Vec::new(alloc);
    push_moves(&mut clocks, &[false])?;
    push_ident_scan(alloc, &mut clocks, device.idcode)?;
    push_instructions(alloc, &mut clocks, device, device.opcodes.as_slice())?;
    Ok(clocks)
}
