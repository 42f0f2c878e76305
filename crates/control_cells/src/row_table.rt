// Boundary cells in their order, with an index of the control cells.
ghost use Rattle.std.specs.Prelude.{◌≡◌, ◌+◌, ◌++◌, ◌∷◌, ◌<◌, ◌^◌, ◌↔◌, [], IsTrue, OnErr, OnOk, Some, None, false, if◌then◌else◌, length, position, vec_capacity, vec_len};
ghost use Rattle.indexmap.specs.IndexMap.{get};
ghost use Rattle.bsdl_device.specs.RowRules.{is_function};
ghost use Rattle.plan_fitting.specs.Rows.{controls, control_row};
ghost use Rattle.control_cells.specs.Keys.{control_key_of};

use crate::driver::Driver;
use crate::keys::{ControlKey, OperandKey};
use cell_library::{BoundaryKind, Function};
use indexmap::IndexMap;
use netlist_model::Feed;
use plan_fitting::FitRow;
use std::alloc::Global;
use std::hash::Hash;
use std::marker::Model;
use texts::{OutOfMemory, Row};

/// Boundary cells by rising number, fewer than 2^32 - 1.
#[derive(Drop)]
pub struct RowTable {
    rows: Vec<FitRow>,
    // The control cell of each operand and polarity, by its number.
    controls: IndexMap<ControlKey, u32>,
}

impl Model for RowTable {
    ghost use Rattle.std.specs.Prelude.{List};
    ghost use Rattle.plan_fitting.specs.declared.fitted.FitRow.{FitRow};
    ghost use Rattle.control_cells.specs.Keys.{FindsControls};

    ghost Value = { List FitRow };

    ghost view = { λ t. t.rows.items };

    ghost invariant = { λ t. FindsControls t.rows.items t.controls.entries };
}

// What the control cell of a driver is found by.
fn control_key(driver: Driver) -> ControlKey
    ensures { result ≡ control_key_of driver }
{
    let operand = match driver.operand {
        Feed::Net(net) => OperandKey::Net(net.0),
        Feed::Const(value) => OperandKey::Const(value),
    };
    let active_high = driver.active_high;
    ControlKey {
        operand,
        active_high,
    }
}

// Notes a number under a key.
fn note<K: Eq + Hash + Copy + Drop>(
    table: &mut IndexMap<K, u32>,
    key: K,
    number: u32,
) -> Result<(), OutOfMemory>
    ensures ok { OnOk result ((k : K) → get K.eq table.new k
        ≡ (if K.eq k key then Some number else get K.eq table.old k)) }
    ensures err { OnErr result (table.new.entries ≡ table.old.entries) }
{
    table.insert(key, number)?;
    Ok(())
}

fn push_reserved(rows: &mut Vec<FitRow>, row: FitRow)
    requires { vec_len rows.old < vec_capacity rows.old }
    ensures { rows.new.items ≡ rows.old.items ++ row ∷ [] }
{
    match rows.push(row) {
        Ok(()) => {}
        Err(_) => unreachable!(),
    }
}

// The control cell of a driver.
fn control_cell(kind: BoundaryKind, driver: Driver) -> FitRow
    ensures { result ≡ control_row kind driver }
{
    FitRow {
        cell: kind,
        function: Function::Control,
        pin: None,
        core: Some(driver.operand),
        control: None,
        active_high: driver.active_high,
    }
}

impl RowTable {
    /// No cell.
    pub fn new(alloc: Global) -> RowTable
        ensures { result ≡ [] }
    {
        RowTable {
            rows: Vec::new(alloc),
            controls: IndexMap::new(alloc),
        }
    }

    /// How many cells there are.
    pub fn len(&self) -> u32
        ensures count { result ≡ length self.now }
        ensures more { length self.now + 1 < 2 ^ 32 }
    {
        self.rows.len() as u32
    }

    // Whether there is a number for one cell more.
    fn has_number(&self) -> bool
        ensures { IsTrue result ↔ (length self.now + 2 < 2 ^ 32) }
    {
        self.rows.len() + 1 < u32::MAX as usize
    }

    /// Adds a cell that is no control cell. There is no memory for 2^32 - 1 cells.
    pub fn push(&mut self, row: FitRow) -> Result<(), OutOfMemory>
        requires { is_function Function.Control row.function ≡ false }
        ensures { OnOk result (self.new ≡ self.old ++ row ∷ []) }
    {
        if !self.has_number() {
            return Err(OutOfMemory);
        }
        self.rows.push(row)?;
        Ok(())
    }

    /// The number of a driver's control cell.
    pub fn control_of(&self, driver: Driver) -> Option<u32>
        ensures { result ≡ position (controls driver) self.now }
    {
        self.controls.get(&control_key(driver)).copied()
    }

    /// Adds the control cell of a driver that has none. There is no memory for 2^32 - 1 cells.
    pub fn push_control(&mut self, kind: BoundaryKind, driver: Driver) -> Result<(), OutOfMemory>
        requires { position (controls driver) self.old ≡ None }
        ensures { OnOk result (self.new ≡ self.old ++ control_row kind driver ∷ []) }
    {
        if !self.has_number() {
            return Err(OutOfMemory);
        }
        let number = self.rows.len() as u32;
        self.rows.reserve(1)?;
        note(&mut self.controls, control_key(driver), number)?;
        push_reserved(&mut self.rows, control_cell(kind, driver));
        Ok(())
    }

    /// The cells.
    pub fn into_rows(self) -> Row<FitRow>
        ensures rows { result ≡ self }
        ensures count { length result < 2 ^ 32 }
    {
        let RowTable { rows, controls: _ } = self;
        Row::from(rows)
    }
}
