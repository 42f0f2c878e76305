// The plan of the demonstration netlists.

ghost use Rattle.std.specs.Prelude.{◌≡◌, [], ◌∷◌, ◌++◌, ◌+◌, ◌<◌, ℕ, map, IfOk, OnOk};
ghost use Rattle.demo_chips.specs.Netlists.{from_zero};
ghost use Rattle.demo_chips.specs.Plans as model;

use crate::names::{bit_word, number_word};
use cell_library::{Bits, BoundaryKind, Instr, Opcode};
use plan_texts::{PinLine, Plan, TapLine};
use std::alloc::Global;
use texts::{OutOfMemory, Row, Text};

fn tap_line(alloc: Global, name: &[u8], pin: &[u8]) -> Result<TapLine, OutOfMemory>
    ensures { IfOk result (λ line. line ≡ model.tap_line name.now pin.now) }
{
    Ok(TapLine {
        name: Text::from_bytes(alloc, name)?,
        pin: Text::from_bytes(alloc, pin)?,
    })
}

fn pin_line(alloc: Global, port: Text, pin: u32, cell: BoundaryKind) -> Result<PinLine, OutOfMemory>
    ensures { IfOk result (λ line. line ≡ model.pin_line port pin cell) }
{
    Ok(PinLine {
        port,
        pin: number_word(alloc, pin)?,
        cell,
    })
}

// The bits of a vector of 16, from the left.
#[tactic(auto, using(crate::proofs::Pushed::pushed_more))]
fn push_vector(
    alloc: Global,
    lines: &mut Row<PinLine>,
    name: &[u8],
    first: u32,
) -> Result<(), OutOfMemory>
    requires { first < 1000 }
    ensures { OnOk result (lines.new ≡ lines.old
        ++ map (model.vector_line name.now first) (from_zero 16)) }
{
    for place in 0..16 {
        let word = bit_word(alloc, name, 15 - place)?;
        let line = pin_line(alloc, word, first + place, BoundaryKind::Bc1)?;
        lines.push(line)?;
    }
    Ok(())
}

fn pin_lines(alloc: Global) -> Result<Row<PinLine>, OutOfMemory>
    ensures { IfOk result (λ lines. lines ≡ model.pin_lines) }
{
    let clock = pin_line(
        alloc,
        Text::from_bytes(alloc, b"clk")?,
        1,
        BoundaryKind::Bc4,
    )?;
    let clear = pin_line(alloc, Text::from_bytes(alloc, b"rn")?, 2, BoundaryKind::Bc4)?;
    let mut lines = Row::new(alloc);
    lines.push(clock)?;
    lines.push(clear)?;
    push_vector(alloc, &mut lines, b"d", 3)?;
    push_vector(alloc, &mut lines, b"q", 19)?;
    Ok(lines)
}

fn push_opcode(opcodes: &mut Row<Opcode>, instr: Instr, value: u32) -> Result<(), OutOfMemory>
    ensures { OnOk result (opcodes.new ≡ opcodes.old ++ model.opcode_of instr value ∷ []) }
{
    opcodes.push(Opcode {
        instr,
        bits: Bits { len: 4, value },
    })
}

fn opcodes(alloc: Global) -> Result<Row<Opcode>, OutOfMemory>
    ensures { IfOk result (λ opcodes. opcodes ≡ model.opcodes) }
{
    let mut opcodes = Row::new(alloc);
    push_opcode(&mut opcodes, Instr::Bypass, 15)?;
    push_opcode(&mut opcodes, Instr::Extest, 0)?;
    push_opcode(&mut opcodes, Instr::Sample, 1)?;
    push_opcode(&mut opcodes, Instr::Preload, 1)?;
    push_opcode(&mut opcodes, Instr::Idcode, 2)?;
    push_opcode(&mut opcodes, Instr::Highz, 3)?;
    push_opcode(&mut opcodes, Instr::Clamp, 4)?;
    Ok(opcodes)
}

/// The plan: pins 1 to 34 for the netlist's bits, 35 to 39 for the test access port.
pub fn demo_plan(alloc: Global) -> Result<Plan, OutOfMemory>
    ensures { IfOk result (λ plan. plan ≡ model.demo_plan) }
{
    Ok(Plan {
        version: 1,
        entity: Text::from_bytes(alloc, b"demo_chip")?,
        package: Text::from_bytes(alloc, b"PK")?,
        prefix: Text::from_bytes(alloc, b"bs_")?,
        tck: tap_line(alloc, b"TCK", b"35")?,
        tms: tap_line(alloc, b"TMS", b"36")?,
        tdi: tap_line(alloc, b"TDI", b"37")?,
        tdo: tap_line(alloc, b"TDO", b"38")?,
        trst: tap_line(alloc, b"TRST", b"39")?,
        clock: Text::from_bytes(alloc, b"10")?,
        length: 4,
        capture: Bits { len: 4, value: 1 },
        opcodes: opcodes(alloc)?,
        idcode: Some(268_439_555),
        usercode: None,
        control: BoundaryKind::Bc1,
        pins: pin_lines(alloc)?,
        linkage: Row::new(alloc),
    })
}
