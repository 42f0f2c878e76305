ghost use Rattle.std.specs.Prelude.{◌≡◌, IfOk, OnOk};
ghost use Rattle.bsdl_device.specs.IsDevice.{IsDevice};
ghost use Rattle.scan_vectors.specs.Canonical.{canonical_lines, IsLines};
ghost use Rattle.scan_programs.specs.Program as definition;
ghost use Rattle.scan_programs.specs.Runs.{after_clocks};

use crate::bench::Bench;
use crate::clocks::{Clock, all_clocks};
use bsdl_device::Device;
use scan_vectors::{Line, Lines};
use std::alloc::Global;
use texts::{OutOfMemory, Row};

// The lines with the numbers that they have in their canonical text.
fn numbered(alloc: Global, list: Row<Line>) -> Result<Lines, OutOfMemory>
    ensures { IfOk result (λ lines. lines ≡ canonical_lines list) }
{
    let end = list.len() as u64 + 2;
    let mut numbers = Row::new(alloc);
    for number in 2..end {
        numbers.push(number)?;
    }
    Ok(Lines { list, numbers, end })
}

fn run(bench: &mut Bench, clocks: &[Clock]) -> Result<(), OutOfMemory>
    ensures { OnOk result (bench.new ≡ after_clocks clocks.now bench.old) }
{
    for cycle in clocks {
        bench.clock(*cycle)?;
    }
    Ok(())
}

// The lines of the program, one after another.
fn list_of(alloc: Global, device: &Device) -> Result<Row<Line>, OutOfMemory>
    requires { IsDevice device.now }
    ensures { IfOk result (λ list. list ≡ definition.program_of device.now) }
{
    let clocks = all_clocks(alloc, device)?;
    let mut bench = Bench::new(alloc, device)?;
    bench.start()?;
    bench.look()?;
    bench.end_reset()?;
    bench.look()?;
    run(&mut bench, clocks.as_slice())?;
    bench.reset()?;
    bench.look()?;
    Ok(bench.into_list())
}

/// The program of a device, numbered as in its canonical text.
pub fn program(alloc: Global, device: &Device) -> Result<Lines, OutOfMemory>
    requires { IsDevice device.now }
    ensures lines { IfOk result (λ lines. lines ≡ canonical_lines (definition.program_of device.now)) }
    ensures printable { IfOk result (λ lines. IsLines lines.list) }
{
    let list = list_of(alloc, device)?;
    numbered(alloc, list)
}
