// The texts that are written.
ghost use Rattle.std.specs.Prelude.{◌≡◌, IfOk};
ghost use Rattle.bsdl_device.specs.IsExtended.{IsExtended};
ghost use Rattle.netlist_arena.specs.Arena.{bit_count};
ghost use Rattle.netlist_unlink.specs.Prefixes.{IsFreePrefix};
ghost use Rattle.insertions.specs.Insertions.{IsNetlistText};
ghost use Rattle.status_insertions.specs.Insertions.{IsExtendedText};
ghost use Rattle.status_insertions.specs.Reports.{extended_report};

use crate::lines::report_all;
use bsdl_device::registers::Extended;
use bsdl_device::registers_round_trip::canonical_extended_texts_spell;
use bsdl_printing::registers::print_extended;
use bsdl_values::register_texts::spells_one_extended;
use insertions::{Inserted, netlist_text};
use netlist_link::Linked;
use status_inputs::StatusFitting;
use std::alloc::Global;
use texts::{OutOfMemory, Text};

// The canonical text of a device with its registers, which spells it.
fn extended_text(alloc: Global, extended: &Extended) -> Result<Text, OutOfMemory>
    requires { IsExtended extended.now }
    ensures { IfOk result (IsExtendedText extended.now) }
{
    // Laws that the proof uses.
    canonical_extended_texts_spell();
    spells_one_extended();
    print_extended(alloc, extended)
}

/// The texts of a netlist with its test logic and registers, of its device, and the report.
pub fn write_texts(
    alloc: Global,
    linked: &Linked,
    fitting: &StatusFitting,
) -> Result<Inserted, OutOfMemory>
    requires prefix { IsFreePrefix linked.now fitting.now.plan.prefix }
    requires extended { IsExtended fitting.now.extended }
    requires open { linked.now.straight.count ≡ 0 }
    ensures netlist { IfOk result (λ made. IsNetlistText linked.now fitting.now.plan.prefix
        made.verilog) }
    ensures bsdl { IfOk result (λ made. IsExtendedText fitting.now.extended made.bsdl) }
    ensures report { IfOk result (λ made. made.report
        ≡ extended_report (bit_count linked.now.arena.lists.ports) fitting.now.fitted.kept fitting.now.extended) }
{
    let verilog = netlist_text(alloc, linked, fitting.plan.prefix.as_bytes())?;
    let bsdl = extended_text(alloc, &fitting.extended)?;
    let report = report_all(alloc, linked, &fitting.fitted, &fitting.extended)?;
    Ok(Inserted {
        verilog,
        bsdl,
        report,
    })
}
