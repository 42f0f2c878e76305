// The text of a check.
ghost use Rattle.std.specs.Prelude.{◌≡◌, ◌++◌, IfOk, OnOk};
ghost use Rattle.std.specs.List.{flat_map};
ghost use Rattle.scan_vectors.specs.Grammar.{pin_of};
ghost use Rattle.scan_vectors.specs.Scripts.{IsSpelled};
ghost use Rattle.sim_runs.specs.Outputs.{done_line, missed_line};
ghost use Rattle.conformance_report.specs.ChecksLaws.{check_text, miss_text};
ghost use Rattle.conformance_report.specs.Merges.{AreWithin, misses_behind, text_at};

use crate::{Missed, Verdict};
use itoa::Buffer;
use output_lines::add_line;
use scan_vectors::scripts::parts_of;
use scan_vectors::{Line, Lines};
use signal_values::show;
use std::alloc::Global;
use texts::{OutOfMemory, Text};

// The line of an expectation that isn't met.
fn put_miss(text: &mut Text, miss: &Missed, line: &Line) -> Result<(), OutOfMemory>
    ensures { OnOk result (text.new ≡ text.old
        ++ missed_line miss.now.line (pin_of line.now) miss.now.want miss.now.got) }
{
    let mut digits = Buffer::new();
    let number = digits.format(miss.line).as_bytes();
    let word = parts_of(line).word;
    add_line(
        text,
        b"missed",
        &[number, word, &[show(miss.want)], &[show(miss.got)]],
    )
}

// Goes past a line: puts the first expectation if it is of this line, and answers those behind.
fn pass_line<'a>(
    text: &mut Text,
    line: &Line,
    number: u64,
    misses: &'a [Missed],
) -> Result<&'a [Missed], OutOfMemory>
    ensures text { OnOk result (text.new ≡ text.old ++ text_at number (pin_of line.now) misses.now) }
    ensures behind { IfOk result (λ behind. behind.now ≡ misses_behind number misses.now) }
{
    if misses.is_empty() {
        return Ok(misses);
    }
    let miss = &misses[0];
    if miss.line != number {
        return Ok(misses);
    }
    put_miss(text, miss, line)?;
    Ok(&misses[1..])
}

// A line for each expectation that isn't met. The lines are gone through once, as both lists are in one order.
fn put_misses(text: &mut Text, lines: &Lines, misses: &[Missed]) -> Result<(), OutOfMemory>
    requires spelled { IsSpelled lines.now }
    requires within { AreWithin misses.now lines.now.numbers }
    ensures { OnOk result (text.new ≡ text.old ++ flat_map (miss_text lines.now) misses.now) }
{
    let numbers = lines.numbers.as_slice();
    let mut rest = misses;
    for (place, line) in lines.list.as_slice().iter().enumerate() {
        rest = pass_line(text, line, numbers[place], rest)?;
    }
    Ok(())
}

// The last line.
fn put_done(text: &mut Text, sets: u64, missed: usize) -> Result<(), OutOfMemory>
    ensures { OnOk result (text.new ≡ text.old ++ done_line sets missed) }
{
    let mut sets_digits = Buffer::new();
    let mut missed_digits = Buffer::new();
    let sets_word = sets_digits.format(sets).as_bytes();
    let missed_word = missed_digits.format(missed).as_bytes();
    add_line(text, b"done", &[sets_word, missed_word])
}

/// The text of a verdict on the run of these lines.
pub fn verdict_text(alloc: Global, lines: &Lines, verdict: &Verdict) -> Result<Text, OutOfMemory>
    requires spelled { IsSpelled lines.now }
    requires within { AreWithin verdict.now.missed lines.now.numbers }
    ensures { IfOk result (λ text. text ≡ check_text lines.now verdict.now) }
{
    let mut text = Text::new(alloc);
    put_misses(&mut text, lines, verdict.missed.as_slice())?;
    put_done(&mut text, verdict.sets, verdict.missed.len())?;
    Ok(text)
}
