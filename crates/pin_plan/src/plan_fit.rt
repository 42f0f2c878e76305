// Fitting a plan to a netlist.
ghost use Rattle.std.specs.Prelude.{◌≡◌, ◌<◌, ◌^◌, IfErr, IfOk, length};
ghost use Rattle.netlist_link.specs.Hidden.{AreStraight, EndsHidden};
ghost use Rattle.plan_fitting.specs.Devices.{IsFitted, fitted_of};
ghost use Rattle.plan_fitting.specs.Fits.{IsFault, fault_with, name_fault, prefix_fault};
ghost use Rattle.texts.specs.First.{or_else};

use crate::bits::BitTable;
use crate::cells::find_unsuited;
use crate::codes::codes_of;
use crate::copies::{OwnTexts, TapLines, lines_copy, own_texts, tap_lines};
use crate::missing::find_missing;
use crate::names::find_name_fault;
use crate::netlist_names::{inner_names, port_names};
use crate::pins::{PinAt, pins_of};
use crate::ports::fit_ports;
use crate::prefix::find_prefix_fault;
use crate::rows::boundary_rows;
use crate::twice::find_twice;
use netlist_link::Linked;
use plan_fitting::{FitFault, FitPort, FitRow, Fitted};
use plan_texts::{Plan, TapLine};
use std::alloc::Global;
use test_logic::Codes;
use texts::{OutOfMemory, Row};

// The first fault of names.
#[tactic(auto, using(crate::proofs::Barred::names_told, crate::proofs::Barred::prefixes_told))]
fn find_text_fault(
    alloc: Global,
    plan: &Plan,
    linked: &Linked,
) -> Result<Option<FitFault>, OutOfMemory>
    requires { EndsHidden linked.now }
    ensures { IfOk result (λ found. found ≡ or_else (name_fault linked.now plan.now)
        (prefix_fault linked.now plan.now)) }
{
    let ports = port_names(alloc, linked)?;
    let inner = inner_names(alloc, linked)?;
    match find_name_fault(alloc, plan, &ports, &inner)? {
        Some(fault) => Ok(Some(fault)),
        None => find_prefix_fault(alloc, plan, &ports, &inner),
    }
}

// The first fault, where each pin line names a bit.
fn find_fault(
    alloc: Global,
    plan: &Plan,
    linked: &Linked,
    pins: &[PinAt],
    bits: &BitTable,
) -> Result<Option<FitFault>, OutOfMemory>
    requires bits { bits.now ≡ pins.now }
    requires last { EndsHidden linked.now }
    ensures { IfOk result (λ found. found ≡ fault_with linked.now plan.now pins.now) }
{
    match find_missing(alloc, linked, bits)? {
        Some(fault) => return Ok(Some(fault)),
        None => {}
    }
    match find_twice(alloc, plan, pins)? {
        Some(fault) => return Ok(Some(fault)),
        None => {}
    }
    match find_unsuited(alloc, plan.pins.as_slice(), pins)? {
        Some(fault) => return Ok(Some(fault)),
        None => {}
    }
    find_text_fault(alloc, plan, linked)
}

// Puts together what fitting gives.
fn put_together(
    plan: &Plan,
    kept: u32,
    parts: DeviceParts,
    texts: OwnTexts,
    tap: TapLines,
    codes: Codes,
    linkage: Row<TapLine>,
) -> Fitted
    ensures { result ≡ record {
      rows = parts.rows;
      ports = parts.ports;
      entity = texts.entity;
      «package» = texts.«package»;
      tck = tap.tck;
      tms = tap.tms;
      tdi = tap.tdi;
      tdo = tap.tdo;
      trst = tap.trst;
      clock = texts.clock;
      linkage = linkage;
      codes = codes;
      idcode = plan.now.idcode;
      usercode = plan.now.usercode;
      kept = kept;
    } }
{
    Fitted {
        rows: parts.rows,
        ports: parts.ports,
        entity: texts.entity,
        package: texts.package,
        tck: tap.tck,
        tms: tap.tms,
        tdi: tap.tdi,
        tdo: tap.tdo,
        trst: tap.trst,
        clock: texts.clock,
        linkage,
        codes,
        idcode: plan.idcode,
        usercode: plan.usercode,
        kept,
    }
}

// The boundary cells and the ports.
#[derive(Drop)]
struct DeviceParts {
    rows: Row<FitRow>,
    ports: Row<FitPort>,
}

fn device_parts(
    alloc: Global,
    plan: &Plan,
    linked: &Linked,
    pins: &[PinAt],
    bits: &BitTable,
) -> Result<DeviceParts, OutOfMemory>
    requires { bits.now ≡ pins.now }
    ensures rows { IfOk result (λ parts. parts.rows ≡ (fitted_of linked.now plan.now pins.now).rows) }
    ensures ports { IfOk result (λ parts. parts.ports ≡ (fitted_of linked.now plan.now pins.now).ports) }
    ensures count { IfOk result (λ parts. length parts.rows < 2 ^ 32) }
{
    Ok(DeviceParts {
        rows: boundary_rows(alloc, plan, pins)?,
        ports: fit_ports(alloc, linked, plan, bits)?,
    })
}

// What fitting gives.
fn fitted(
    alloc: Global,
    plan: &Plan,
    linked: &Linked,
    pins: &[PinAt],
    bits: &BitTable,
) -> Result<Fitted, OutOfMemory>
    requires { bits.now ≡ pins.now }
    ensures fitted { IfOk result (λ fitted. fitted ≡ fitted_of linked.now plan.now pins.now) }
    ensures count { IfOk result (λ fitted. length fitted.rows < 2 ^ 32) }
{
    let kept = linked.netlist().cell_count();
    let parts = device_parts(alloc, plan, linked, pins, bits)?;
    let texts = own_texts(alloc, plan)?;
    let tap = tap_lines(alloc, plan)?;
    let codes = codes_of(alloc, plan)?;
    let linkage = lines_copy(alloc, plan.linkage.as_slice())?;
    Ok(put_together(plan, kept, parts, texts, tap, codes, linkage))
}

/// Fits a plan to a netlist, in time linear in both: its boundary cells and ports where no fault stands, else the first
/// fault in the order of `FitFault`. It says `OutOfMemory` also for 2^32 - 1 boundary cells.
pub fn fit(alloc: Global, plan: &Plan, linked: &Linked) -> Result<Fitted, FitFault>
    requires straight { AreStraight linked.now }
    requires last { EndsHidden linked.now }
    ensures fitted { IfOk result (IsFitted linked.now plan.now) }
    ensures count { IfOk result (λ fitted. length fitted.rows < 2 ^ 32) }
    ensures fault { IfErr result (IsFault linked.now plan.now) }
{
    let pins = pins_of(alloc, linked, plan.pins.as_slice())?;
    let bits = BitTable::of(alloc, &pins)?;
    match find_fault(alloc, plan, linked, &pins, &bits)? {
        Some(fault) => return Err(fault),
        None => {}
    }
    Ok(fitted(alloc, plan, linked, &pins, &bits)?)
}
