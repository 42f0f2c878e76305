// The boundary register.
ghost use Rattle.std.specs.Prelude.{◌≡◌, ◌++◌, OnOk};
ghost use Rattle.std.specs.List.{enumerate_from};
ghost use Rattle.bsdl_device.specs.Grammar as words;
ghost use Rattle.bsdl_device.specs.Canonical as text_of;

use crate::head::port_name;
use crate::text::{put_all, put_attribute};
use bsdl_device::runs::written::{cell_word, put_number};
use bsdl_device::{CellRow, DevBit, DevPort, Device, Disable, Safe};
use cell_library::Function;
use texts::{OutOfMemory, Text};

fn function_word(function: Function) -> &'static [u8]
    ensures { result.now ≡ words.function_word function }
{
    match function {
        Function::Input => b"input",
        Function::Output2 => b"output2",
        Function::Output3 => b"output3",
        Function::Control => b"control",
        Function::Bidir => b"bidir",
        Function::Clock => b"clock",
    }
}

fn safe_word(safe: Safe) -> &'static [u8]
    ensures { result.now ≡ words.safe_word safe }
{
    match safe {
        Safe::Zero => b"0",
        Safe::One => b"1",
        Safe::Any => b"X",
    }
}

#[tactic(auto, unfolding(bsdl_device::specs::Canonical::index_text))]
fn put_index(text: &mut Text, index: Option<u32>) -> Result<(), OutOfMemory>
    ensures { OnOk result (text.new ≡ text.old ++ text_of.index_text index) }
{
    let Some(index) = index else {
        return Ok(());
    };
    text.append(b"(")?;
    put_number(text, index as u64)?;
    text.append(b")")
}

#[tactic(auto, unfolding(bsdl_device::specs::Canonical::pin_text))]
fn put_pin(text: &mut Text, ports: &[DevPort], pin: Option<DevBit>) -> Result<(), OutOfMemory>
    ensures { OnOk result (text.new ≡ text.old ++ text_of.pin_text ports.now pin) }
{
    let Some(DevBit { port, index }) = pin else {
        return text.append(b"*");
    };
    text.append(port_name(ports, port))?;
    put_index(text, index)
}

fn bit_word(value: bool) -> &'static [u8]
    ensures { result.now ≡ words.bit_word value }
{
    match value {
        false => b"0",
        true => b"1",
    }
}

#[tactic(auto, unfolding(bsdl_device::specs::Canonical::disable_text))]
fn put_disable(text: &mut Text, disable: Option<Disable>) -> Result<(), OutOfMemory>
    ensures { OnOk result (text.new ≡ text.old ++ text_of.disable_text disable) }
{
    let Some(Disable { control, value }) = disable else {
        return Ok(());
    };
    text.append(b", ")?;
    put_number(text, control as u64)?;
    put_all(text, &[b", ", bit_word(value), b", Z"])
}

#[tactic(auto, unfolding(bsdl_device::specs::Canonical::row_text))]
fn put_row(
    text: &mut Text,
    ports: &[DevPort],
    number: usize,
    row: &CellRow,
) -> Result<(), OutOfMemory>
    ensures { OnOk result (text.new ≡ text.old ++ text_of.row_text ports.now number row.now) }
{
    put_number(text, number as u64)?;
    put_all(text, &[b" (", cell_word(row.cell), b", "])?;
    put_pin(text, ports, row.pin)?;
    put_all(
        text,
        &[
            b", ",
            function_word(row.function),
            b", ",
            safe_word(row.safe),
        ],
    )?;
    put_disable(text, row.disable)?;
    text.append(b")")
}

// Adds the rows after the first.
fn put_more_rows(text: &mut Text, ports: &[DevPort], rows: &[CellRow]) -> Result<(), OutOfMemory>
    ensures { OnOk result (text.new ≡ text.old
        ++ text_of.each_after text_of.next_string (λ row. text_of.row_text ports.now row.0 row.1) (enumerate_from 1 rows.now)) }
{
    for (place, row) in rows.iter().enumerate() {
        put_all(text, &[b",\" &\n    \""])?;
        put_row(text, ports, place + 1, row)?;
    }
    Ok(())
}

#[tactic(auto, unfolding(bsdl_device::specs::Canonical::rows_text))]
fn put_rows(text: &mut Text, ports: &[DevPort], rows: &[CellRow]) -> Result<(), OutOfMemory>
    ensures { OnOk result (text.new ≡ text.old ++ text_of.rows_text ports.now rows.now) }
{
    let [first, more @ ..] = rows else {
        return Ok(());
    };
    put_row(text, ports, 0, first)?;
    put_more_rows(text, ports, more)
}

#[tactic(auto, unfolding(bsdl_device::specs::Canonical::boundary_length_text))]
fn put_length(text: &mut Text, entity: &[u8], count: usize) -> Result<(), OutOfMemory>
    ensures { OnOk result (text.new ≡ text.old ++ text_of.boundary_length_text entity.now count) }
{
    put_attribute(text, b")\";\n", b"BOUNDARY_LENGTH", entity, b" ")?;
    put_number(text, count as u64)
}

#[tactic(auto, unfolding(bsdl_device::specs::Canonical::boundary_rows_text))]
fn put_register(
    text: &mut Text,
    entity: &[u8],
    ports: &[DevPort],
    cells: &[CellRow],
) -> Result<(), OutOfMemory>
    ensures { OnOk result (text.new ≡ text.old
        ++ text_of.boundary_rows_text entity.now ports.now cells.now) }
{
    put_attribute(text, b";\n", b"BOUNDARY_REGISTER", entity, b"\n    \"")?;
    put_rows(text, ports, cells)
}

/// Adds the length of the boundary register and its rows.
#[tactic(auto, unfolding(bsdl_device::specs::Canonical::boundary_text))]
pub fn put_boundary(text: &mut Text, device: &Device) -> Result<(), OutOfMemory>
    ensures { OnOk result (text.new ≡ text.old ++ text_of.boundary_text device.now) }
{
    let entity = device.entity.as_bytes();
    let cells = device.cells.as_slice();
    put_length(text, entity, cells.len())?;
    put_register(text, entity, device.ports.as_slice(), cells)
}
