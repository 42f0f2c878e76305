// Copies of listed cells.
ghost use Rattle.std.specs.Prelude.{◌≡◌, IfOk};

use crate::listed::{Body, ListedCell, Step};
use std::alloc::Global;
use verilog_lexicon::lower_texts::{OutOfMemory, Row, Text};

fn copy_of_text(alloc: Global, text: &Text) -> Result<Text, OutOfMemory>
    ensures { IfOk result (λ copy. copy ≡ text.now) }
{
    Text::from_bytes(alloc, text.as_bytes())
}

fn copy_of_texts(alloc: Global, texts: &[Text]) -> Result<Row<Text>, OutOfMemory>
    ensures { IfOk result (λ copy. copy ≡ texts.now) }
{
    let mut copy = Row::new(alloc);
    for text in texts {
        copy.push(copy_of_text(alloc, text)?)?;
    }
    Ok(copy)
}

fn copy_of_steps(alloc: Global, steps: &[Step]) -> Result<Row<Step>, OutOfMemory>
    ensures { IfOk result (λ copy. copy ≡ steps.now) }
{
    let mut copy = Row::new(alloc);
    for step in steps {
        copy.push(*step)?;
    }
    Ok(copy)
}

fn copy_of_body(alloc: Global, body: &Body) -> Result<Body, OutOfMemory>
    ensures { IfOk result (λ copy. copy ≡ body.now) }
{
    match body {
        Body::Flop(kind) => Ok(Body::Flop(*kind)),
        Body::Gate(steps) => Ok(Body::Gate(copy_of_steps(alloc, steps.as_slice())?)),
    }
}

fn copy_of(alloc: Global, cell: &ListedCell) -> Result<ListedCell, OutOfMemory>
    ensures { IfOk result (λ copy. copy ≡ cell.now) }
{
    Ok(ListedCell {
        name: copy_of_text(alloc, &cell.name)?,
        output: copy_of_text(alloc, &cell.output)?,
        inputs: copy_of_texts(alloc, cell.inputs.as_slice())?,
        body: copy_of_body(alloc, &cell.body)?,
    })
}

pub(crate) fn copy_of_cells(
    alloc: Global,
    cells: &[ListedCell],
) -> Result<Row<ListedCell>, OutOfMemory>
    ensures { IfOk result (λ copy. copy ≡ cells.now) }
{
    let mut copy = Row::new(alloc);
    for cell in cells {
        copy.push(copy_of(alloc, cell)?)?;
    }
    Ok(copy)
}
