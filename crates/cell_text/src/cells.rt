// The cell of a line.
ghost use Rattle.std.specs.Prelude.{◌≡◌, ◌≤◌, ◌∷◌, length, IfOk, Some, None};
ghost use Rattle.std.specs.List.{list_all};
ghost use Rattle.verilog_lexicon.specs.Bytes.{is_name_byte};
ghost use Rattle.cell_library.specs.Sound as sound;
ghost use Rattle.texts.specs.Repeated.{texts};
ghost use Rattle.cell_text.specs.Cells as cells;

use crate::lines::{colon_place, takes};
use crate::words::{flop_named, step_of};
use cell_library::{Body, FlopKind, ListedCell, Step};
use std::alloc::Global;
use texts::first_faults::first_repeated;
use texts::{OutOfMemory, Row, Text};
use verilog_lexicon::keywords::{is_simple_name, reserved_of};

/// A simple name that is no key word, of at most 255 bytes.
pub(crate) fn is_cell_name(word: &[u8]) -> bool
    ensures { result ≡ sound.is_cell_name word.now }
{
    is_simple_name(word) && reserved_of(word).is_none() && word.len() <= 255
}

/// A cell's name other than `mux`, which stands for a step.
pub fn is_port_name(word: &[u8]) -> bool
    ensures { result ≡ sound.is_port_name word.now }
{
    is_cell_name(word) && word != b"mux".as_slice()
}

fn are_port_names(words: &[&[u8]]) -> bool
    ensures { result ≡ list_all (λ word. sound.is_port_name word.now) words.now }
{
    words.iter().all(|word| is_port_name(*word))
}

#[tactic(auto, using(crate::proofs::Borrowed::all_texts))]
fn are_ports(alloc: Global, words: &[&[u8]]) -> Result<bool, OutOfMemory>
    ensures { IfOk result (λ are. are ≡ cells.are_ports (texts words.now)) }
{
    if !are_port_names(words) {
        return Ok(false);
    }
    Ok(first_repeated(alloc, words)?.is_none())
}

// How many values a step needs.
fn wants(step: Step) -> usize
    ensures { result ≡ sound.wants step }
{
    match step {
        Step::Input(_) | Step::Const(_) => 0,
        Step::Not => 1,
        Step::And | Step::Or | Step::Xor => 2,
        Step::Mux => 3,
    }
}

// The step names one of so many operands, or none.
fn is_of(count: usize, step: Step) -> bool
    ensures { result ≡ sound.is_of count step }
{
    match step {
        Step::Input(place) => (place as usize) < count,
        _ => true,
    }
}

// Whether steps over so many operands leave one value, and none lacks one or stands too high.
#[tactic(auto, using(crate::proofs::Bodies::stands))]
fn leave_one(count: usize, steps: &[Step]) -> bool
    ensures { result ≡ sound.leaves_one count 0 steps.now }
{
    let mut depth = 0;
    for step in steps {
        if !is_of(count, *step) || wants(*step) > depth {
            return false;
        }
        depth = depth - wants(*step) + 1;
        if depth > 16 {
            return false;
        }
    }
    depth == 1
}

#[tactic(auto, using(crate::proofs::Bodies::steps_begin, crate::proofs::Bodies::step_taken, crate::proofs::Bodies::no_step, crate::proofs::Bodies::steps_done))]
fn steps_of(
    alloc: Global,
    inputs: &[&[u8]],
    words: &[&[u8]],
) -> Result<Option<Row<Step>>, OutOfMemory>
    requires { length inputs.now ≤ 16 }
    ensures { IfOk result (λ found. found ≡ cells.steps_of (texts inputs.now) (texts words.now)) }
{
    let mut steps = Row::new(alloc);
    for word in words {
        match step_of(inputs, *word) {
            Some(step) => steps.push(step)?,
            None => return Ok(None),
        }
    }
    Ok(Some(steps))
}

fn row_of(alloc: Global, words: &[&[u8]]) -> Result<Row<Text>, OutOfMemory>
    ensures { IfOk result (λ row. row ≡ texts words.now) }
{
    let mut row = Row::new(alloc);
    for word in words {
        row.push(Text::from_bytes(alloc, *word)?)?;
    }
    Ok(row)
}

fn cell_of(
    alloc: Global,
    name: &[u8],
    output: &[u8],
    inputs: &[&[u8]],
    body: Body,
) -> Result<ListedCell, OutOfMemory>
    ensures { IfOk result (λ cell. cell ≡ cells.cell_of name.now output.now (texts inputs.now) body) }
{
    Ok(ListedCell {
        name: Text::from_bytes(alloc, name)?,
        output: Text::from_bytes(alloc, output)?,
        inputs: row_of(alloc, inputs)?,
        body,
    })
}

fn with_ports(
    alloc: Global,
    name: &[u8],
    ports: &[&[u8]],
    body: Body,
) -> Result<Option<ListedCell>, OutOfMemory>
    ensures { IfOk result (λ found. found ≡ cells.with_ports name.now (texts ports.now) body) }
{
    match ports {
        [] => Ok(None),
        [output, inputs @ ..] => {
            if !are_ports(alloc, ports)? {
                return Ok(None);
            }
            Ok(Some(cell_of(alloc, name, *output, inputs, body)?))
        }
    }
}

fn gate_of(
    alloc: Global,
    name: &[u8],
    ports: &[&[u8]],
    words: &[&[u8]],
) -> Result<Option<ListedCell>, OutOfMemory>
    requires some { 1 ≤ length ports.now }
    requires few { length ports.now ≤ 17 }
    ensures { IfOk result (λ found. found ≡ cells.gate_of name.now (texts ports.now) (texts words.now)) }
{
    let inputs = &ports[1..];
    match steps_of(alloc, inputs, words)? {
        Some(steps) if leave_one(inputs.len(), steps.as_slice()) => {
            with_ports(alloc, name, ports, Body::Gate(steps))
        }
        _ => Ok(None),
    }
}

// What stands behind the key `gate` and a name.
fn gate_behind(
    alloc: Global,
    name: &[u8],
    ports: &[&[u8]],
) -> Result<Option<ListedCell>, OutOfMemory>
    ensures { IfOk result (λ found. found ≡ cells.gate_in (name.now ∷ texts ports.now)) }
{
    match ports {
        [] => Ok(None),
        [_, rest @ ..] => match colon_place(rest) {
            None => Ok(None),
            Some(place) => gate_of(alloc, name, &ports[..place + 1], &rest[place + 1..]),
        },
    }
}

// What stands behind the key `gate`.
fn gate_in(alloc: Global, words: &[&[u8]]) -> Result<Option<ListedCell>, OutOfMemory>
    ensures { IfOk result (λ found. found ≡ cells.gate_in (texts words.now)) }
{
    match words {
        [] => Ok(None),
        [name, ports @ ..] => gate_behind(alloc, *name, ports),
    }
}

fn flop_of(
    alloc: Global,
    name: &[u8],
    ports: &[&[u8]],
    kind: FlopKind,
) -> Result<Option<ListedCell>, OutOfMemory>
    ensures { IfOk result (λ found. found ≡ cells.flop_of name.now (texts ports.now) kind) }
{
    if !takes(ports, kind) {
        return Ok(None);
    }
    with_ports(alloc, name, ports, Body::Flop(kind))
}

// What stands behind the key `flop`.
#[tactic(auto, using(crate::proofs::Parts::flop_short))]
fn flop_in(alloc: Global, words: &[&[u8]]) -> Result<Option<ListedCell>, OutOfMemory>
    ensures { IfOk result (λ found. found ≡ cells.flop_in (texts words.now)) }
{
    match words {
        [name, kind, ports @ ..] => match flop_named(*kind) {
            Some(kind) => flop_of(alloc, *name, ports, kind),
            None => Ok(None),
        },
        _ => Ok(None),
    }
}

/// The cell of a line, from its words.
pub(crate) fn cell_in(alloc: Global, words: &[&[u8]]) -> Result<Option<ListedCell>, OutOfMemory>
    ensures { IfOk result (λ found. found ≡ cells.cell_in (texts words.now)) }
{
    match words {
        [] => Ok(None),
        [key, rest @ ..] => {
            if *key == b"gate".as_slice() {
                gate_in(alloc, rest)
            } else if *key == b"flop".as_slice() {
                flop_in(alloc, rest)
            } else {
                Ok(None)
            }
        }
    }
}
