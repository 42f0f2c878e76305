// Rules on the rows of the boundary register.
ghost use Rattle.std.specs.Prelude.{◌≡◌, IfOk};
ghost use Rattle.std.specs.List.{list_any};
ghost use Rattle.bsdl_device.specs.Ports as declared;
ghost use Rattle.bsdl_device.specs.RowRules as row_rule;
ghost use Rattle.bsdl_row_rules.specs.Controls as known;

use crate::bit_rows::BitRows;
use crate::controls::{Controls, controls_of, is_named, is_present};
use crate::disables::some_disagree;
use crate::row_cells::{is_cell, is_control, is_function};
use crate::system_bits::{is_system_bit, some_bit_not_in_one_row};
use bsdl_device::runs::opcodes::has_instruction;
use bsdl_device::{Contents, File, PortMode, RowEntry, TapNames};
use bsdl_port_rules::{PortTable, is_mode};
use cell_library::{BoundaryKind, Function, Instr};
use std::alloc::Global;
use texts::OutOfMemory;

fn control_fails(controls: &Controls, row: &RowEntry) -> bool
    requires { known.KnowsControls controls.now.rows.now controls.now.named.keys
        controls.now.present.keys }
    ensures { result ≡ row_rule.control_fails controls.now.rows.now row.now }
{
    is_control(row)
        && (row.port.is_some()
            || !(is_cell(BoundaryKind::Bc1, row.cell) || is_cell(BoundaryKind::Bc2, row.cell))
            || !is_named(controls, row.number))
}

fn lacks_port(row: &RowEntry) -> bool
    ensures { result ≡ row_rule.lacks_port row.now }
{
    !is_control(row) && row.port.is_none()
}

fn port_misfits(ports: &PortTable, tap: &TapNames, row: &RowEntry) -> bool
    ensures { result ≡ row_rule.port_misfits ports.now tap.now row.now }
{
    match &row.port {
        None => false,
        Some(bit) => !is_system_bit(ports, tap, bit),
    }
}

fn stands_at(ports: &PortTable, wanted: PortMode, row: &RowEntry) -> bool
    ensures { result ≡ row_rule.stands_at ports.now wanted row.now }
{
    match &row.port {
        None => false,
        Some(bit) => match ports.find(bit.port.as_bytes()) {
            None => false,
            Some(port) => is_mode(wanted, port.mode),
        },
    }
}

fn input_fails(ports: &PortTable, row: &RowEntry) -> bool
    ensures { result ≡ row_rule.input_fails ports.now row.now }
{
    is_function(Function::Input, row.function)
        && !((is_cell(BoundaryKind::Bc1, row.cell) || is_cell(BoundaryKind::Bc4, row.cell))
            && stands_at(ports, PortMode::Input, row))
}

fn clock_fails(ports: &PortTable, row: &RowEntry) -> bool
    ensures { result ≡ row_rule.clock_fails ports.now row.now }
{
    is_function(Function::Clock, row.function)
        && !(is_cell(BoundaryKind::Bc4, row.cell) && stands_at(ports, PortMode::Input, row))
}

fn output_fails(ports: &PortTable, row: &RowEntry) -> bool
    ensures { result ≡ row_rule.output_fails ports.now row.now }
{
    (is_function(Function::Output2, row.function) || is_function(Function::Output3, row.function))
        && !((is_cell(BoundaryKind::Bc1, row.cell) || is_cell(BoundaryKind::Bc2, row.cell))
            && stands_at(ports, PortMode::Output, row))
}

fn bidir_fails(ports: &PortTable, row: &RowEntry) -> bool
    ensures { result ≡ row_rule.bidir_fails ports.now row.now }
{
    is_function(Function::Bidir, row.function)
        && !(is_cell(BoundaryKind::Bc7, row.cell) && stands_at(ports, PortMode::Inout, row))
}

fn takes_disable(row: &RowEntry) -> bool
    ensures { result ≡ row_rule.takes_disable row.now }
{
    is_function(Function::Output3, row.function) || is_function(Function::Bidir, row.function)
}

fn disable_misfits(row: &RowEntry) -> bool
    ensures { result ≡ row_rule.disable_misfits row.now }
{
    match row.disable {
        None => takes_disable(row),
        Some(_) => !takes_disable(row),
    }
}

fn control_is_unknown(controls: &Controls, row: &RowEntry) -> bool
    requires { known.KnowsControls controls.now.rows.now controls.now.named.keys
        controls.now.present.keys }
    ensures { result ≡ row_rule.control_is_unknown controls.now.rows.now row.now }
{
    match row.disable {
        None => false,
        Some(disable) => !is_present(controls, disable.control),
    }
}

fn row_misfits(ports: &PortTable, tap: &TapNames, controls: &Controls, row: &RowEntry) -> bool
    requires { known.KnowsControls controls.now.rows.now controls.now.named.keys
        controls.now.present.keys }
    ensures { result ≡ row_rule.row_misfits ports.now tap.now controls.now.rows.now row.now }
{
    control_fails(controls, row)
        || lacks_port(row)
        || port_misfits(ports, tap, row)
        || input_fails(ports, row)
        || clock_fails(ports, row)
        || output_fails(ports, row)
        || bidir_fails(ports, row)
        || disable_misfits(row)
        || control_is_unknown(controls, row)
}

fn some_misfits(ports: &PortTable, tap: &TapNames, controls: &Controls) -> bool
    requires { known.KnowsControls controls.now.rows.now controls.now.named.keys
        controls.now.present.keys }
    ensures { result ≡ list_any (row_rule.row_misfits ports.now tap.now controls.now.rows.now)
        controls.now.rows.now }
{
    for row in controls.rows {
        if row_misfits(ports, tap, controls, row) {
            return true;
        }
    }
    false
}

fn has_output2(rows: &[RowEntry]) -> bool
    ensures { result ≡ list_any (λ r. row_rule.is_function Function.Output2 r.function) rows.now }
{
    rows.iter()
        .any(|row| is_function(Function::Output2, row.function))
}

fn highz_fails(contents: &Contents) -> bool
    ensures { result ≡ row_rule.highz_fails contents.now }
{
    has_instruction(contents.opcodes.as_slice(), Instr::Highz)
        && has_output2(contents.rows.as_slice())
}

/// A row has a cell, port, disable value or control cell that it may not have, a bit of the device's own logic doesn't
/// stand in exactly one row, two rows disagree on a disable value, or HIGHZ meets an output that can't be disabled.
pub fn row_fails(
    alloc: Global,
    file: &File,
    contents: &Contents,
    ports: &PortTable,
) -> Result<bool, OutOfMemory>
    requires { ports.now ≡ declared.declared_ports file.now }
    ensures { IfOk result (λ fails. fails ≡ row_rule.row_fails file.now contents.now) }
{
    let rows = contents.rows.as_slice();
    let controls = controls_of(alloc, rows)?;
    let counted = BitRows::of(alloc, rows)?;
    let disagree = some_disagree(alloc, rows)?;
    Ok(
        some_misfits(ports, &file.tap, &controls)
            || some_bit_not_in_one_row(&counted, ports, &file.tap)
            || disagree
            || highz_fails(contents),
    )
}
