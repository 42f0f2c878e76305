// The report on a netlist with its test logic.
ghost use Rattle.std.specs.Prelude.{◌≡◌, IfOk};
ghost use Rattle.insertion_report.specs.Reports.{own_bits, report_of};

use crate::lines::report_text;
use bsdl_device::Device;
use netlist_link::Linked;
use plan_fitting::Fitted;
use std::alloc::Global;
use texts::{OutOfMemory, Text};

/// The report on a device, the netlist of which has its test logic, and the plan that it was made by. Hidden bits aren't
/// counted.
pub fn report(
    alloc: Global,
    linked: &Linked,
    fitted: &Fitted,
    device: &Device,
) -> Result<Text, OutOfMemory>
    ensures { IfOk result (λ text. text ≡ report_of (own_bits linked.now) fitted.now.kept device.now) }
{
    report_text(alloc, linked.own_pin_count(), fitted.kept, device)
}
