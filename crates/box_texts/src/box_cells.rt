// The box of a line.
ghost use Rattle.std.specs.Prelude.{◌≡◌, ◌++◌, ◌≤◌, length, map, IfOk, is_none, position, take, drop};
ghost use Rattle.texts.specs.Repeated.{texts, repeated};
ghost use Rattle.cell_text.specs.Words.{is_colon};
ghost use Rattle.box_texts.specs.Ports as ports;
ghost use Rattle.box_texts.specs.Boxes as boxes;

use crate::ports::port_in;
use crate::words::is_colon;
use box_model::{BoxCell, BoxDir, BoxPort};
use cell_library::{Body, ListedCell, Step};
use std::alloc::Global;
use texts::first_faults::first_repeated;
use texts::{OutOfMemory, Row, Text};

// These ports, and those of the words behind them, unless a word tells none.
#[tactic(auto, using(crate::proofs::PortLoops::port_taken, crate::proofs::PortLoops::no_port, crate::proofs::PortLoops::ports_done))]
fn with_ports(
    alloc: Global,
    before: Row<BoxPort>,
    dir: BoxDir,
    words: &[&[u8]],
) -> Result<Option<Row<BoxPort>>, OutOfMemory>
    ensures { IfOk result (λ found. found ≡ boxes.behind_those before (boxes.ports_in dir (texts words.now))) }
{
    let mut ports = before;
    for word in words {
        match port_in(alloc, dir, *word)? {
            Some(port) => ports.push(port)?,
            None => return Ok(None),
        }
    }
    Ok(Some(ports))
}

fn names_of<'a>(alloc: Global, ports: &'a [BoxPort]) -> Result<Vec<&'a [u8]>, OutOfMemory>
    ensures { IfOk result (λ names. texts names.items ≡ boxes.names_of ports.now) }
{
    let mut names = Vec::new(alloc);
    for port in ports {
        names.push(port.name.as_bytes())?;
    }
    Ok(names)
}

// No name stands twice among the ports.
fn are_apart(alloc: Global, ports: &[BoxPort]) -> Result<bool, OutOfMemory>
    ensures { IfOk result (λ are. are ≡ is_none (repeated (boxes.names_of ports.now))) }
{
    let names = names_of(alloc, ports)?;
    Ok(first_repeated(alloc, names.as_slice())?.is_none())
}

fn all_ports(
    alloc: Global,
    gives: &[&[u8]],
    takes: &[&[u8]],
) -> Result<Option<Row<BoxPort>>, OutOfMemory>
    ensures { IfOk result (λ found. found ≡ boxes.all_ports (texts gives.now) (texts takes.now)) }
{
    match with_ports(alloc, Row::new(alloc), BoxDir::Gives, gives)? {
        Some(outputs) => with_ports(alloc, outputs, BoxDir::Takes, takes),
        None => Ok(None),
    }
}

// The ports of a box, outputs first.
fn ports_of(
    alloc: Global,
    gives: &[&[u8]],
    takes: &[&[u8]],
) -> Result<Option<Row<BoxPort>>, OutOfMemory>
    ensures { IfOk result (λ found. found ≡ boxes.ports_of (texts gives.now) (texts takes.now)) }
{
    match all_ports(alloc, gives, takes)? {
        Some(ports) => {
            if are_apart(alloc, ports.as_slice())? {
                Ok(Some(ports))
            } else {
                Ok(None)
            }
        }
        None => Ok(None),
    }
}

// The place of the colon between outputs and inputs.
fn colon_place(words: &[&[u8]]) -> Option<usize>
    ensures { result ≡ position (λ word. is_colon word.now) words.now }
{
    words.iter().position(|word| is_colon(*word))
}

fn box_of(
    alloc: Global,
    name: &[u8],
    gives: &[&[u8]],
    takes: &[&[u8]],
) -> Result<Option<BoxCell>, OutOfMemory>
    ensures { IfOk result (λ found. found ≡ boxes.box_of name.now (texts gives.now) (texts takes.now)) }
{
    match ports_of(alloc, gives, takes)? {
        Some(ports) => Ok(Some(BoxCell {
            name: Text::from_bytes(alloc, name)?,
            ports,
        })),
        None => Ok(None),
    }
}

// The box of a name and the words behind it.
#[tactic(auto, using(crate::proofs::PortLoops::no_sides))]
fn box_behind(alloc: Global, name: &[u8], words: &[&[u8]]) -> Result<Option<BoxCell>, OutOfMemory>
    ensures { IfOk result (λ found. found ≡ boxes.box_behind name.now (texts words.now)) }
{
    match colon_place(words) {
        Some(place) => box_of(alloc, name, &words[..place], &words[place + 1..]),
        None => Ok(None),
    }
}

/// The box of a line, from its words.
pub(crate) fn box_in(alloc: Global, words: &[&[u8]]) -> Result<Option<BoxCell>, OutOfMemory>
    ensures { IfOk result (λ found. found ≡ boxes.box_in (texts words.now)) }
{
    match words {
        [_, name, rest @ ..] => box_behind(alloc, *name, rest),
        _ => Ok(None),
    }
}

/// The listed gate in a box's place: without inputs, and of which nothing is linked.
pub(crate) fn bare_cell(alloc: Global, name: &[u8]) -> Result<ListedCell, OutOfMemory>
    ensures { IfOk result (λ cell. cell ≡ boxes.bare_cell name.now) }
{
    let mut steps = Row::new(alloc);
    steps.push(Step::Const(false))?;
    Ok(ListedCell {
        name: Text::from_bytes(alloc, name)?,
        output: Text::from_bytes(alloc, b"Y")?,
        inputs: Row::new(alloc),
        body: Body::Gate(steps),
    })
}
