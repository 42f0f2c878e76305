// Cells that are listed in a library: their records, and the library that holds them.
ghost use Rattle.std.specs.Prelude.{◌≡◌, ◌<◌, ◌^◌, ◌∷◌, [], ◌++◌, length, IfOk, OnErr, OnOk, position, slice_get, option_copied, Some};
ghost use Rattle.std.specs.Option.{option_map};
ghost use Rattle.std.specs.Str.{bytes_eq};
ghost use Rattle.cell_library.specs.Listed.{listed, body_flop, body_output};
ghost use Rattle.cell_library.specs.Library.{port_in, port_named};
ghost use Rattle.cell_library.specs.declared.Kind.TheVariants.{Listed};
ghost use Rattle.cell_library.specs.Sound.{IsSoundCell, IsLibrary, IsNewTo};

use crate::copies::copy_of_cells;
use crate::steps::output_of_steps;
use crate::{FlopKind, PortPlace};
use signal_values::Sig;
use std::alloc::Global;
use std::marker::Model;
use verilog_lexicon::lower_texts::{OutOfMemory, Row, Text};

/// A step of a gate: it puts a value on top of those that stand, or takes one, two or three from there and puts
/// one in their place.
#[derive(Clone, Copy, Drop)]
pub enum Step {
    /// The operand of this number.
    Input(u32),
    Const(bool),
    Not,
    And,
    Or,
    Xor,
    /// Takes s, a and b, which were put there in this order.
    Mux,
}

/// What a listed cell does: a gate by its steps, or a flip-flop.
#[derive(Drop)]
pub enum Body {
    Gate(Row<Step>),
    Flop(FlopKind),
}

/// A cell with a name, ports and a body of its own. The inputs of a flip-flop are D, CK and, where there
/// is one, RN or SN.
#[derive(Drop)]
pub struct ListedCell {
    pub name: Text,
    pub output: Text,
    pub inputs: Row<Text>,
    pub body: Body,
}

/// Cells beside the seven that every netlist may use, each by its number.
#[derive(Drop)]
pub struct Library {
    cells: Row<ListedCell>,
}

impl Model for Library {
    ghost use Rattle.std.specs.Prelude.{List};
    ghost use Rattle.cell_library.specs.declared.listed.ListedCell.{ListedCell};
    ghost use Rattle.cell_library.specs.Sound.{IsLibrary};

    ghost Value = { List ListedCell };

    ghost view = { λ l. l.cells };

    ghost invariant = { λ l. IsLibrary l.cells };
}

impl Library {
    /// A library without cells, which takes no memory.
    pub fn new(alloc: Global) -> Library
        ensures { result ≡ [] }
    {
        Library {
            cells: Row::new(alloc),
        }
    }

    /// Adds a cell after the others. Without memory the library stays as it was.
    pub fn add(&mut self, cell: ListedCell) -> Result<(), OutOfMemory>
        requires room { length self.old < 4096 }
        requires sound { IsSoundCell cell }
        requires name { IsNewTo self.old cell.name }
        ensures ok { OnOk result (self.new ≡ self.old ++ cell ∷ []) }
        ensures err { OnErr result (self.new ≡ self.old) }
    {
        self.cells.push(cell)
    }

    /// How many cells there are. The contract says besides what holds of each library.
    pub fn count(&self) -> u32
        ensures count { result ≡ length self.now }
        ensures library { IsLibrary self.now }
    {
        self.cells.len() as u32
    }

    /// The cell with this number.
    pub fn cell(&self, number: u32) -> &ListedCell
        requires { number < length self.now }
        ensures { slice_get self.now number ≡ Some result.now }
    {
        &self.cells.as_slice()[number as usize]
    }

    /// A library of the same cells.
    pub fn copy(&self, alloc: Global) -> Result<Library, OutOfMemory>
        ensures { IfOk result (λ copy. copy ≡ self.now) }
    {
        Ok(Library {
            cells: copy_of_cells(alloc, self.cells.as_slice())?,
        })
    }

    /// What the cell with this number gives, from the values of its operands. It takes no memory.
    pub fn output_of(&self, number: u32, inputs: &[Sig]) -> Sig
        ensures { result ≡ body_output (listed self.now number).body inputs.now }
    {
        match self.cells.as_slice().get(number as usize) {
            None => Sig::Zero,
            Some(cell) => match &cell.body {
                Body::Gate(steps) => output_of_steps(cell.inputs.len(), steps.as_slice(), inputs),
                Body::Flop(_) => Sig::Unknown,
            },
        }
    }

    // The flip-flop that a cell is.
    pub(crate) fn flop_of(&self, number: u32) -> Option<FlopKind>
        ensures { result ≡ body_flop (listed self.now number).body }
    {
        match self.cells.as_slice().get(number as usize) {
            None => None,
            Some(cell) => match &cell.body {
                Body::Gate(_) => None,
                Body::Flop(kind) => Some(*kind),
            },
        }
    }

    // How many operands a cell has.
    pub(crate) fn input_count(&self, number: u32) -> u32
        ensures { result ≡ length (listed self.now number).inputs }
    {
        match self.cells.as_slice().get(number as usize) {
            None => 0,
            Some(cell) => cell.inputs.len() as u32,
        }
    }

    // The first cell of this name.
    pub(crate) fn place_of(&self, name: &[u8]) -> Option<u32>
        ensures { result ≡ position (λ cell. bytes_eq name.now cell.name) self.now }
    {
        let place = cell_place(self.cells.as_slice(), name)?;
        Some(place as u32)
    }

    // The place of a cell's port.
    #[tactic(auto, using(crate::proofs::PortLaws::listed_port, crate::proofs::PortLaws::past_port))]
    pub(crate) fn port_of(&self, number: u32, name: &[u8]) -> Option<PortPlace>
        ensures { result ≡ port_named self.now (Listed number) name.now }
    {
        match self.cells.as_slice().get(number as usize) {
            None => None,
            Some(cell) => port_in(cell, name),
        }
    }

    // A cell's name.
    pub(crate) fn name_of(&self, number: u32) -> Option<&[u8]>
        ensures { option_copied result ≡ option_map (λ cell. cell.name) (slice_get self.now number) }
    {
        let cell = self.cells.as_slice().get(number as usize)?;
        Some(cell.name.as_bytes())
    }

    // The port of a cell's output.
    pub(crate) fn output_port_of(&self, number: u32) -> Option<&[u8]>
        ensures { option_copied result ≡ option_map (λ cell. cell.output) (slice_get self.now number) }
    {
        let cell = self.cells.as_slice().get(number as usize)?;
        Some(cell.output.as_bytes())
    }

    // The port of a cell's operand.
    pub(crate) fn input_port_of(&self, number: u32, place: u32) -> &[u8]
        requires { place < length (listed self.now number).inputs }
        ensures { slice_get (listed self.now number).inputs place ≡ Some result.now }
    {
        match self.cells.as_slice().get(number as usize) {
            None => unreachable!(),
            Some(cell) => cell.inputs.as_slice()[place as usize].as_bytes(),
        }
    }
}

// The place of the first cell of this name.
fn cell_place(cells: &[ListedCell], name: &[u8]) -> Option<usize>
    ensures { result ≡ position (λ cell. bytes_eq name.now cell.name) cells.now }
{
    cells.iter().position(|cell| name == cell.name.as_bytes())
}

// The place of a cell's port.
fn port_in(cell: &ListedCell, name: &[u8]) -> Option<PortPlace>
    requires { length cell.now.inputs < 2 ^ 32 }
    ensures { result ≡ port_in (Some cell.now.output) cell.now.inputs name.now }
{
    if name == cell.output.as_bytes() {
        return Some(PortPlace::Output);
    }
    let place = name_place(cell.inputs.as_slice(), name)?;
    Some(PortPlace::Input(place as u32))
}

// The first place of a name.
fn name_place(names: &[Text], name: &[u8]) -> Option<usize>
    ensures { result ≡ position (λ text. bytes_eq name.now text) names.now }
{
    names.iter().position(|text| name == text.as_bytes())
}
