// The device of what was fitted.

ghost use Rattle.std.specs.Prelude.{◌≡◌, ◌++◌, [], ◌∷◌, map, IfOk, OnOk, option_map, ◌+◌, ◌^◌, ◌<◌, length, codes};
ghost use Rattle.netlist_link.specs.WellNamed as wells;
ghost use Rattle.plan_fitting.specs.Devices as devices;
ghost use Rattle.scan_stitch.specs.Ready.{IsBitInRange, IsRowInRange, AreBitsInRange};

use bsdl_device::{CellRow, DevBit, DevPort, Device, Disable, PortMode, PortRange, Safe, Stop};
use cell_library::Function;
use netlist_model::{Dir, PinBit, Range};
use plan_fitting::copies::{opcodes_copy, text_copy};
use plan_fitting::{FitPort, FitRow, Fitted};
use plan_texts::TapLine;
use std::alloc::Global;
use texts::{OutOfMemory, Row, Text};

fn copy_texts(alloc: Global, texts: &[Text]) -> Result<Row<Text>, OutOfMemory>
    ensures { IfOk result (λ copies. copies ≡ texts.now) }
{
    let mut copies = Row::new(alloc);
    for text in texts {
        let copy = text_copy(alloc, text)?;
        copies.push(copy)?;
    }
    Ok(copies)
}

fn mode_of(dir: Dir) -> PortMode
    ensures { result ≡ devices.mode_of_side dir }
{
    match dir {
        Dir::Input => PortMode::Input,
        Dir::Output => PortMode::Output,
        Dir::Inout => PortMode::Inout,
    }
}

fn port_range(range: Option<Range>) -> Option<PortRange>
    ensures { result ≡ option_map devices.port_range range }
{
    match range {
        Some(range) => Some(PortRange {
            left: range.left,
            right: range.right,
        }),
        None => None,
    }
}

// A port of the netlist.
fn device_port(alloc: Global, port: &FitPort) -> Result<DevPort, OutOfMemory>
    ensures { IfOk result (λ made. made ≡ devices.dev_port port.now) }
{
    let name = text_copy(alloc, &port.name)?;
    let pins = copy_texts(alloc, port.pins.as_slice())?;
    Ok(DevPort {
        name,
        mode: mode_of(port.dir),
        range: port_range(port.range),
        pins,
    })
}

// A port beside the netlist's.
fn scalar_port(alloc: Global, mode: PortMode, line: &TapLine) -> Result<DevPort, OutOfMemory>
    ensures { IfOk result (λ made. made ≡ devices.scalar_port mode line.now) }
{
    let name = text_copy(alloc, &line.name)?;
    let pin = text_copy(alloc, &line.pin)?;
    let mut pins = Row::new(alloc);
    pins.push(pin)?;
    Ok(DevPort {
        name,
        mode,
        range: None,
        pins,
    })
}

fn push_ports(alloc: Global, into: &mut Row<DevPort>, ports: &[FitPort]) -> Result<(), OutOfMemory>
    ensures { OnOk result (into.new ≡ into.old ++ map devices.dev_port ports.now) }
{
    for port in ports {
        let made = device_port(alloc, port)?;
        into.push(made)?;
    }
    Ok(())
}

fn push_tap(alloc: Global, into: &mut Row<DevPort>, fitted: &Fitted) -> Result<(), OutOfMemory>
    ensures { OnOk result (into.new ≡ into.old ++ devices.tap_ports fitted.now) }
{
    let tck = scalar_port(alloc, PortMode::Input, &fitted.tck)?;
    let tms = scalar_port(alloc, PortMode::Input, &fitted.tms)?;
    let tdi = scalar_port(alloc, PortMode::Input, &fitted.tdi)?;
    let tdo = scalar_port(alloc, PortMode::Output, &fitted.tdo)?;
    let trst = scalar_port(alloc, PortMode::Input, &fitted.trst)?;
    into.push(tck)?;
    into.push(tms)?;
    into.push(tdi)?;
    into.push(tdo)?;
    into.push(trst)?;
    Ok(())
}

fn push_linkage(
    alloc: Global,
    into: &mut Row<DevPort>,
    lines: &[TapLine],
) -> Result<(), OutOfMemory>
    ensures { OnOk result (into.new ≡ into.old ++ map (devices.scalar_port PortMode.Linkage) lines.now) }
{
    for line in lines {
        let made = scalar_port(alloc, PortMode::Linkage, line)?;
        into.push(made)?;
    }
    Ok(())
}

// The netlist's ports, the test access port, linkage.
fn device_ports(alloc: Global, fitted: &Fitted) -> Result<Row<DevPort>, OutOfMemory>
    ensures { IfOk result (λ ports. ports ≡ devices.dev_ports fitted.now) }
{
    let mut ports = Row::new(alloc);
    push_ports(alloc, &mut ports, fitted.ports.as_slice())?;
    push_tap(alloc, &mut ports, fitted)?;
    push_linkage(alloc, &mut ports, fitted.linkage.as_slice())?;
    Ok(ports)
}

// The index of a bit in its port's range, counted from the left.
fn index_of(range: Option<Range>, bit: u32) -> Option<u32>
    requires { IsBitInRange range bit }
    ensures { result ≡ wells.index_from range bit }
{
    match range {
        None => None,
        Some(range) if range.left <= range.right => Some(range.left + bit),
        Some(range) => Some(range.left - bit),
    }
}

// The range of the port of a bit.
fn range_at(fitted: &Fitted, pin: PinBit) -> Option<Range>
    ensures { result ≡ devices.range_at fitted.now pin }
{
    match fitted.ports.as_slice().get(pin.port.0 as usize) {
        Some(port) => port.range,
        None => None,
    }
}

fn device_bit(fitted: &Fitted, pin: PinBit) -> DevBit
    requires { IsBitInRange (devices.range_at fitted.now pin) pin.bit }
    ensures { result ≡ devices.dev_bit fitted.now pin }
{
    DevBit {
        port: pin.port.0,
        index: index_of(range_at(fitted, pin), pin.bit),
    }
}

// A control cell, by its number, with the value there that disables its drivers.
fn disable_of(rows: &[FitRow], number: u32) -> Disable
    ensures { result ≡ devices.disable_by rows.now number }
{
    let value = match rows.get(number as usize) {
        Some(row) => !row.active_high,
        None => false,
    };
    Disable {
        control: number,
        value,
    }
}

// The disable value of a control cell; any other may hold any value.
fn safe_value(row: &FitRow) -> Safe
    ensures { result ≡ devices.safe_value row.now }
{
    match row.function {
        Function::Control => {
            if row.active_high {
                Safe::Zero
            } else {
                Safe::One
            }
        }
        _ => Safe::Any,
    }
}

fn device_row(fitted: &Fitted, row: &FitRow) -> CellRow
    requires { IsRowInRange fitted.now row.now }
    ensures { result ≡ devices.cell_row fitted.now row.now }
{
    let pin = match row.pin {
        Some(pin) => Some(device_bit(fitted, pin)),
        None => None,
    };
    let disable = match row.control {
        Some(number) => Some(disable_of(fitted.rows.as_slice(), number)),
        None => None,
    };
    CellRow {
        cell: row.cell,
        pin,
        function: row.function,
        safe: safe_value(row),
        disable,
    }
}

fn device_rows(alloc: Global, fitted: &Fitted) -> Result<Row<CellRow>, OutOfMemory>
    requires { AreBitsInRange fitted.now }
    ensures { IfOk result (λ cells. cells ≡ map (devices.cell_row fitted.now) fitted.now.rows) }
{
    let mut cells = Row::new(alloc);
    let rows = fitted.rows.as_slice();
    for row in rows {
        let made = device_row(fitted, row);
        cells.push(made)?;
    }
    Ok(cells)
}

// The rate of TCK, as BSDL writes it: the digits are megahertz.
fn clock_of(alloc: Global, fitted: &Fitted) -> Result<Text, OutOfMemory>
    ensures { IfOk result (λ clock. clock ≡ fitted.now.clock ++ codes ".0e6") }
{
    let mut clock = text_copy(alloc, &fitted.clock)?;
    clock.append(b".0e6")?;
    Ok(clock)
}

/// The device of a plan that was fitted to a netlist.
pub fn device_of_fit(alloc: Global, fitted: &Fitted) -> Result<Device, OutOfMemory>
    requires bits { AreBitsInRange fitted.now }
    requires ports { length fitted.now.ports + 5 < 2 ^ 32 }
    ensures { IfOk result (λ device. device ≡ devices.device_of_fitted fitted.now) }
{
    let entity = text_copy(alloc, &fitted.entity)?;
    let package = text_copy(alloc, &fitted.package)?;
    let ports = device_ports(alloc, fitted)?;
    let clock = clock_of(alloc, fitted)?;
    let opcodes = opcodes_copy(alloc, fitted.codes.opcodes.as_slice())?;
    let cells = device_rows(alloc, fitted)?;
    let first = fitted.ports.len() as u32;
    Ok(Device {
        entity,
        package,
        ports,
        tck: first,
        tms: first + 1,
        tdi: first + 2,
        tdo: first + 3,
        trst: first + 4,
        clock,
        stop: Stop::Both,
        length: fitted.codes.length,
        opcodes,
        capture: fitted.codes.capture,
        idcode: fitted.idcode,
        usercode: fitted.usercode,
        cells,
    })
}
