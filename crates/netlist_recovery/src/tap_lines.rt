// The lines of the test access port and of linkage.
ghost use Rattle.std.specs.Prelude.{◌≡◌, IfOk, suc, [], ◌∷◌, drop, map, option_and_then};
ghost use Rattle.strip_model.specs.Plans as model;

use bsdl_device::{DevPort, Device};
use plan_fitting::copies::text_copy;
use plan_texts::TapLine;
use std::alloc::Global;
use strip_model::Taps;
use texts::{OutOfMemory, Row, Text};

fn line_with(alloc: Global, port: &DevPort, pin: &Text) -> Result<TapLine, OutOfMemory>
    ensures { IfOk result (λ line. line ≡ record { name = port.now.name; pin = pin.now }) }
{
    Ok(TapLine {
        name: text_copy(alloc, &port.name)?,
        pin: text_copy(alloc, pin)?,
    })
}

fn line_of(alloc: Global, port: &DevPort) -> Result<Option<TapLine>, OutOfMemory>
    ensures { IfOk result (λ line. line ≡ model.line_of port.now) }
{
    match port.pins.as_slice().first() {
        Some(pin) => Ok(Some(line_with(alloc, port, pin)?)),
        None => Ok(None),
    }
}

fn line_at(alloc: Global, device: &Device, number: u32) -> Result<Option<TapLine>, OutOfMemory>
    ensures { IfOk result (λ line. line ≡ model.line_at device.now number) }
{
    match device.ports.as_slice().get(number as usize) {
        Some(port) => line_of(alloc, port),
        None => Ok(None),
    }
}

fn taps_with(
    tck: Option<TapLine>,
    tms: Option<TapLine>,
    tdi: Option<TapLine>,
    tdo: Option<TapLine>,
    trst: Option<TapLine>,
) -> Option<Taps>
    ensures { result ≡ option_and_then model.taps_from (model.all_found (tck ∷ tms ∷ tdi ∷ tdo ∷ trst ∷ [])) }
{
    match (tck, tms, tdi, tdo, trst) {
        (Some(tck), Some(tms), Some(tdi), Some(tdo), Some(trst)) => Some(Taps {
            tck,
            tms,
            tdi,
            tdo,
            trst,
        }),
        (_, _, _, _, _) => None,
    }
}

/// The lines of the test access port.
pub fn taps_of(alloc: Global, device: &Device) -> Result<Option<Taps>, OutOfMemory>
    ensures { IfOk result (λ taps. taps ≡ model.taps_of device.now) }
{
    let tck = line_at(alloc, device, device.tck)?;
    let tms = line_at(alloc, device, device.tms)?;
    let tdi = line_at(alloc, device, device.tdi)?;
    let tdo = line_at(alloc, device, device.tdo)?;
    let trst = line_at(alloc, device, device.trst)?;
    Ok(taps_with(tck, tms, tdi, tdo, trst))
}

// The lines of all these ports; none where a port has no pin.
fn lines_of(alloc: Global, ports: &[DevPort]) -> Result<Option<Row<TapLine>>, OutOfMemory>
    ensures { IfOk result (λ lines. lines ≡ model.all_found (map model.line_of ports.now)) }
{
    let mut found = Row::new(alloc);
    for port in ports {
        match line_of(alloc, port)? {
            Some(line) => found.push(line)?,
            None => return Ok(None),
        }
    }
    Ok(Some(found))
}

// The ports behind the one with this number.
#[tactic(auto, using(list_laws::proofs::Lists::none_left))]
fn behind(ports: &[DevPort], number: u32) -> &[DevPort]
    ensures { result.now ≡ drop (suc number) ports.now }
{
    let first = number as usize + 1;
    if first <= ports.len() {
        &ports[first..]
    } else {
        &[]
    }
}

/// The lines of linkage: those of the ports behind TRST.
pub fn linkage_of(alloc: Global, device: &Device) -> Result<Option<Row<TapLine>>, OutOfMemory>
    ensures { IfOk result (λ lines. lines
        ≡ model.all_found (map model.line_of (drop (suc device.now.trst) device.now.ports))) }
{
    lines_of(alloc, behind(device.ports.as_slice(), device.trst))
}
