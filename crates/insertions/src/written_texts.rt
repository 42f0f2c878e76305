// The texts that are written.
ghost use Rattle.std.specs.Prelude.{◌≡◌, IfOk};
ghost use Rattle.bsdl_device.specs.IsDevice.{IsDevice};
ghost use Rattle.netlist_arena.specs.Arena.{bit_count};
ghost use Rattle.netlist_unlink.specs.Prefixes.{IsFreePrefix};
ghost use Rattle.insertion_report.specs.Reports.{report_of};
ghost use Rattle.insertions.specs.Insertions.{IsDeviceText, IsNetlistText};

use bsdl_device::Device;
use bsdl_printing::print_device;
use bsdl_values::devices_are_read_back;
use insertion_inputs::Fitting;
use insertion_report::report;
use netlist_link::Linked;
use netlist_unlink::unlink;
use std::alloc::Global;
use texts::{OutOfMemory, Text};
use verilog_texts::printing::print_module;

/// What an insertion gives: the netlist's text, the device's, and the report.
#[derive(Drop)]
pub struct Inserted {
    pub verilog: Text,
    pub bsdl: Text,
    pub report: Text,
}

/// The canonical text of the module that a netlist is written as.
pub fn netlist_text(alloc: Global, linked: &Linked, prefix: &[u8]) -> Result<Text, OutOfMemory>
    requires { IsFreePrefix linked.now prefix.now }
    ensures { IfOk result (IsNetlistText linked.now prefix.now) }
{
    let tree = unlink(alloc, linked, prefix)?;
    print_module(alloc, &tree)
}

// The canonical text of a device, which spells it.
fn device_text(alloc: Global, device: &Device) -> Result<Text, OutOfMemory>
    requires { IsDevice device.now }
    ensures { IfOk result (IsDeviceText device.now) }
{
    // A law that the proof uses.
    devices_are_read_back();
    print_device(alloc, device)
}

/// The texts of a netlist with its test logic, of its device, and the report. No port of the netlist is hidden.
pub fn write_texts(
    alloc: Global,
    linked: &Linked,
    fitting: &Fitting,
) -> Result<Inserted, OutOfMemory>
    requires prefix { IsFreePrefix linked.now fitting.now.plan.prefix }
    requires device { IsDevice fitting.now.device }
    requires open { linked.now.straight.count ≡ 0 }
    ensures netlist { IfOk result (λ made. IsNetlistText linked.now fitting.now.plan.prefix
        made.verilog) }
    ensures bsdl { IfOk result (λ made. IsDeviceText fitting.now.device made.bsdl) }
    ensures report { IfOk result (λ made. made.report
        ≡ report_of (bit_count linked.now.arena.lists.ports) fitting.now.fitted.kept fitting.now.device) }
{
    let verilog = netlist_text(alloc, linked, fitting.plan.prefix.as_bytes())?;
    let bsdl = device_text(alloc, &fitting.device)?;
    let report = report(alloc, linked, &fitting.fitted, &fitting.device)?;
    Ok(Inserted {
        verilog,
        bsdl,
        report,
    })
}
