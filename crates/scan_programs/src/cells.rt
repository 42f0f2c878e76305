// What boundary cells capture and what their pins read, where nothing is known of the core.

ghost use Rattle.std.specs.Prelude.{◌≡◌, ℕ, ◌<◌, ◌^◌, ◌++◌, ◌∷◌, [], length, IfOk, IfSome, OnOk};
ghost use Rattle.std.specs.Option.{option_map};
ghost use Rattle.signal_values.specs.Values as values;
ghost use Rattle.test_logic.specs.Instructions as instructions;
ghost use Rattle.test_logic.specs.Machine.{in_effect, test_logic_of, update_of};
ghost use Rattle.test_logic.specs.Rows as rows;
ghost use Rattle.scan_programs.specs.Cells as definition;
ghost use Rattle.scan_programs.specs.Views.{control_view, cell_view};
ghost use Rattle.scan_programs.specs.Fits.{AreInRange, IsInRange};

use bsdl_device::{CellRow, Device, Disable};
use cell_library::{BoundaryKind, Function, Instr};
use signal_values::{PinSig, Sig, drive, join, mux, not, pin_of, see};
use std::alloc::Global;
use tap_machine::Machine;
use test_logic::Mode;
use texts::OutOfMemory;

/// The control cell of a driver: the value there that disables the driver, its update bit, and the core's control.
#[derive(Clone, Copy)]
pub struct Control {
    pub disable: bool,
    pub upd: Sig,
    pub core: Sig,
}

/// What stands at a cell: its update bit, the core's value, its driver's control cell, and what is outside.
#[derive(Clone, Copy)]
pub struct Cell {
    pub upd: Sig,
    pub core: Sig,
    pub control: Option<Control>,
    pub outside: PinSig,
}

/// The value of a level.
pub fn bit(level: bool) -> Sig
    ensures { result ≡ values.bit level }
{
    if level { Sig::One } else { Sig::Zero }
}

fn level(mode: Mode, control: Control) -> Sig
    ensures { result ≡ rows.level mode (control_view control) }
{
    if mode.hiz {
        bit(control.disable)
    } else if mode.m_out {
        control.upd
    } else {
        control.core
    }
}

fn enable_of(disable: bool, control: Sig) -> Sig
    ensures { result ≡ rows.enable_of disable control }
{
    if disable { not(control) } else { control }
}

fn driven(mode: Mode, control: Option<Control>, value: Sig) -> PinSig
    ensures { result ≡ rows.driven mode (option_map control_view control) value }
{
    match control {
        None => pin_of(value),
        Some(control) => drive(value, enable_of(control.disable, level(mode, control))),
    }
}

fn own(mode: Mode, cell: Cell) -> PinSig
    ensures { result ≡ rows.own mode (cell_view cell) }
{
    let datum = if mode.m_out { cell.upd } else { cell.core };
    driven(mode, cell.control, datum)
}

fn row_reading(function: Function, mode: Mode, cell: Cell) -> PinSig
    ensures { result ≡ rows.row_reading function mode (cell_view cell) }
{
    match function {
        Function::Bidir => join(own(mode, cell), cell.outside),
        Function::Input | Function::Clock => cell.outside,
        Function::Output2 | Function::Output3 | Function::Control => own(mode, cell),
    }
}

fn is_extest(instruction: Instr) -> bool
    ensures { result ≡ instructions.is_extest instruction }
{
    instruction == Instr::Extest
}

fn output_captured(kind: BoundaryKind, extest: bool, cell: Cell) -> Sig
    ensures { result ≡ rows.output_captured kind extest (cell_view cell) }
{
    if kind == BoundaryKind::Bc2 && extest {
        cell.upd
    } else {
        cell.core
    }
}

fn bidir_sampled(control: Option<Control>, reading: Sig, core: Sig) -> Sig
    ensures { result ≡ rows.bidir_sampled (option_map control_view control) reading core }
{
    match control {
        None => core,
        Some(control) => mux(enable_of(control.disable, control.core), reading, core),
    }
}

fn bidir_captured(extest: bool, mode: Mode, cell: Cell) -> Sig
    ensures { result ≡ rows.bidir_captured extest mode (cell_view cell) }
{
    let reading = see(row_reading(Function::Bidir, mode, cell));
    if extest {
        reading
    } else {
        bidir_sampled(cell.control, reading, cell.core)
    }
}

fn row_captured(row: CellRow, instruction: Instr, mode: Mode, cell: Cell) -> Sig
    requires { mode ≡ instructions.mode_of instruction }
    ensures { result ≡ rows.row_captured row.cell row.function instruction (cell_view cell) }
{
    let extest = is_extest(instruction);
    match row.function {
        Function::Input | Function::Clock => see(cell.outside),
        Function::Bidir => bidir_captured(extest, mode, cell),
        Function::Output2 | Function::Output3 | Function::Control => {
            output_captured(row.cell, extest, cell)
        }
    }
}

fn outside_at(function: Function) -> PinSig
    ensures { result ≡ definition.outside_at function }
{
    match function {
        Function::Input | Function::Clock => PinSig::Zero,
        Function::Bidir => PinSig::HighZ,
        Function::Output2 | Function::Output3 | Function::Control => PinSig::Unknown,
    }
}

fn update_of(machine: &Machine, number: u32) -> Sig
    requires { number < length machine.now.logic.kinds }
    ensures { result ≡ update_of machine.now.holds number }
{
    machine.update_bit(number)
}

fn control_at(machine: &Machine, disable: Option<Disable>) -> Option<Control>
    requires { IfSome disable (λ d. d.control < length machine.now.logic.kinds) }
    ensures { (number : ℕ) → option_map control_view result
        ≡ option_map (definition.control_at machine.now.holds definition.unknown_core number) disable }
{
    match disable {
        None => None,
        Some(disable) => Some(Control {
            disable: disable.value,
            upd: update_of(machine, disable.control),
            core: Sig::Unknown,
        }),
    }
}

fn cell_at(machine: &Machine, number: u32, row: CellRow) -> Cell
    requires number { number < length machine.now.logic.kinds }
    requires row { IsInRange (length machine.now.logic.kinds) row }
    ensures { cell_view result ≡ definition.cell_at machine.now.holds definition.unknown_core number row }
{
    Cell {
        upd: update_of(machine, number),
        core: Sig::Unknown,
        control: control_at(machine, row.disable),
        outside: outside_at(row.function),
    }
}

/// What the pin of a cell reads.
pub fn reading(device: &Device, machine: &Machine, number: usize) -> PinSig
    requires logic { machine.now.logic ≡ test_logic_of device.now }
    requires rows { AreInRange device.now.cells }
    requires few { length device.now.cells < 10 ^ 9 }
    ensures { result ≡ definition.reading device.now machine.now.holds definition.unknown_core number }
{
    match device.cells.as_slice().get(number) {
        None => PinSig::Unknown,
        Some(row) => {
            let cell = cell_at(machine, number as u32, *row);
            row_reading(row.function, machine.mode(), cell)
        }
    }
}

fn push_captured(
    bits: &mut Vec<Sig>,
    device: &Device,
    machine: &Machine,
    number: u32,
    row: &CellRow,
) -> Result<(), OutOfMemory>
    requires logic { machine.now.logic ≡ test_logic_of device.now }
    requires number { number < length device.now.cells }
    requires row { IsInRange (length device.now.cells) row.now }
    ensures { OnOk result (bits.new.items ≡ bits.old.items
        ++ definition.captured_at device.now machine.now.holds definition.unknown_core (number, row.now) ∷ []) }
{
    let cell = cell_at(machine, number, *row);
    bits.push(row_captured(*row, machine.in_effect(), machine.mode(), cell))?;
    Ok(())
}

/// What each cell captures.
#[tactic(auto, using(crate::proofs::Lists::images_more, crate::proofs::Lists::images_all, crate::proofs::Opened::captured_is))]
pub fn captured(alloc: Global, device: &Device, machine: &Machine) -> Result<Vec<Sig>, OutOfMemory>
    requires logic { machine.now.logic ≡ test_logic_of device.now }
    requires rows { AreInRange device.now.cells }
    requires few { length device.now.cells < 10 ^ 9 }
    ensures bits { IfOk result (λ bits. bits.items
        ≡ definition.captured device.now machine.now.holds definition.unknown_core) }
    ensures len { IfOk result (λ bits. length bits.items ≡ length device.now.cells) }
{
    let cells = device.cells.as_slice();
    let mut bits = Vec::new(alloc);
    for number in 0..cells.len() {
        push_captured(&mut bits, device, machine, number as u32, &cells[number])?;
    }
    Ok(bits)
}
