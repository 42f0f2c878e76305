// Copies of what a plan gives the device as it stands.
ghost use Rattle.std.specs.Prelude.{◌≡◌, IfOk};

use plan_fitting::copies::text_copy;
use plan_texts::{Plan, TapLine};
use std::alloc::Global;
use texts::{OutOfMemory, Row, Text};

/// The entity, the pin map and the frequency of TCK.
#[derive(Drop)]
pub struct OwnTexts {
    pub entity: Text,
    pub package: Text,
    pub clock: Text,
}

/// The test access port.
#[derive(Drop)]
pub struct TapLines {
    pub tck: TapLine,
    pub tms: TapLine,
    pub tdi: TapLine,
    pub tdo: TapLine,
    pub trst: TapLine,
}

fn line_copy(alloc: Global, line: &TapLine) -> Result<TapLine, OutOfMemory>
    ensures { IfOk result (λ copy. copy ≡ line.now) }
{
    Ok(TapLine {
        name: text_copy(alloc, &line.name)?,
        pin: text_copy(alloc, &line.pin)?,
    })
}

/// Copies of lines of the test access port, in order.
pub fn lines_copy(alloc: Global, lines: &[TapLine]) -> Result<Row<TapLine>, OutOfMemory>
    ensures { IfOk result (λ copy. copy ≡ lines.now) }
{
    let mut copy = Row::new(alloc);
    for line in lines {
        copy.push(line_copy(alloc, line)?)?;
    }
    Ok(copy)
}

/// The texts of a plan.
pub fn own_texts(alloc: Global, plan: &Plan) -> Result<OwnTexts, OutOfMemory>
    ensures { IfOk result (λ texts. texts ≡ record
        { entity = plan.now.entity; «package» = plan.now.«package»; clock = plan.now.clock }) }
{
    Ok(OwnTexts {
        entity: text_copy(alloc, &plan.entity)?,
        package: text_copy(alloc, &plan.package)?,
        clock: text_copy(alloc, &plan.clock)?,
    })
}

/// The test access port of a plan.
pub fn tap_lines(alloc: Global, plan: &Plan) -> Result<TapLines, OutOfMemory>
    ensures { IfOk result (λ tap. tap ≡ record {
      tck = plan.now.tck;
      tms = plan.now.tms;
      tdi = plan.now.tdi;
      tdo = plan.now.tdo;
      trst = plan.now.trst;
    }) }
{
    Ok(TapLines {
        tck: line_copy(alloc, &plan.tck)?,
        tms: line_copy(alloc, &plan.tms)?,
        tdi: line_copy(alloc, &plan.tdi)?,
        tdo: line_copy(alloc, &plan.tdo)?,
        trst: line_copy(alloc, &plan.trst)?,
    })
}
