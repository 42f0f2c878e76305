// Registers from the kept lines of a text, one after the other.
ghost use Rattle.std.specs.Prelude.{◌≡◌, IfOk, IfErr};
ghost use Rattle.word_cutter.specs.LinesWords.{kept_lines};
ghost use Rattle.status_fitting.specs.RegisterTextsFaults.{HasNoFault, IsFault};
ghost use Rattle.status_fitting.specs.Grammar.{SpellsStatus};
ghost use Rattle.status_fitting.specs.Reader.{Gives, front, rest_if, few_at, plan_at, status_at};

use crate::register_texts::fault::{LineFault, StatusFault};
use crate::register_texts::lines::{is_first, register_line};
use crate::register_texts::plan::{StatusPlan, StatusRow};
use std::alloc::Global;
use texts::{OutOfMemory, Row};
use word_cutter::lines::LineReader;

/// How many registers there are at most.
const MOST_REGISTERS: usize = 16;

fn take_register(
    alloc: Global,
    reader: &mut LineReader<'_>,
) -> Result<Option<StatusRow>, OutOfMemory>
    ensures found { IfOk result (λ found. found ≡ front reader.old.rows) }
    ensures rows { IfOk result (λ found. reader.new.rows ≡ rest_if found reader.old.rows) }
    ensures end { reader.new.end ≡ reader.old.end }
{
    let Some(line) = reader.line() else {
        return Ok(None);
    };
    let Some(register) = register_line(alloc, line)? else {
        return Ok(None);
    };
    reader.pass();
    Ok(Some(register))
}

// The registers from here on, of which there are 16 at most.
fn take_registers(alloc: Global, reader: &mut LineReader<'_>) -> Result<Row<StatusRow>, OutOfMemory>
    ensures few { IfOk result (λ list. few_at 16 reader.old.rows ≡ (list, reader.new.rows)) }
    ensures end { reader.new.end ≡ reader.old.end }
{
    let mut list = Row::new(alloc);
    while list.len() < MOST_REGISTERS {
        let Some(register) = take_register(alloc, reader)? else {
            return Ok(list);
        };
        list.push(register)?;
    }
    Ok(list)
}

// The registers up to the end.
fn read_registers(alloc: Global, reader: &mut LineReader<'_>) -> Result<StatusPlan, LineFault>
    ensures gives { Gives result reader.new.rows (plan_at (few_at 16 reader.old.rows)) }
    ensures end { reader.new.end ≡ reader.old.end }
{
    let registers = take_registers(alloc, reader)?;
    if registers.is_empty() {
        return Err(LineFault::Line);
    }
    match reader.line() {
        Some(_) => Err(LineFault::Line),
        None => Ok(StatusPlan { registers }),
    }
}

// All lines; at a fault the reader stands at it.
#[tactic(auto, using(crate::proofs::Few::none_read, crate::proofs::Few::other_first, crate::proofs::Few::goes_on_behind))]
fn read_lines(alloc: Global, reader: &mut LineReader<'_>) -> Result<StatusPlan, LineFault>
    ensures gives { Gives result reader.new.rows (status_at reader.old.rows) }
    ensures end { reader.new.end ≡ reader.old.end }
{
    let Some(line) = reader.line() else {
        return Err(LineFault::Line);
    };
    if !is_first(line) {
        return Err(LineFault::Line);
    }
    reader.pass();
    read_registers(alloc, reader)
}

/// The registers that the bytes spell, or the first line that can't stand there. No more than 16 lines of
/// registers are kept.
pub fn read_status(alloc: Global, bytes: &[u8]) -> Result<StatusPlan, StatusFault>
    ensures spelled { IfOk result (SpellsStatus bytes.now) }
    ensures faultless { IfOk result (λ _. HasNoFault bytes.now) }
    ensures fault { IfErr result (IsFault bytes.now) }
{
    let mut reader = LineReader::new(bytes);
    match read_lines(alloc, &mut reader) {
        Ok(plan) => Ok(plan),
        Err(LineFault::Line) => Err(StatusFault::StatusLine {
            line: reader.number(),
        }),
        Err(LineFault::OutOfMemory) => Err(StatusFault::OutOfMemory),
    }
}
