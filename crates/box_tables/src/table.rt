// What a library says of instances: the ports that are cut at each, found by name.
ghost use Rattle.std.specs.Prelude.{◌≡◌, ◌++◌, ◌∷◌, [], map, position, slice_get, true, is_some, option_copied, option_map, IfOk, OnOk};
ghost use Rattle.std.specs.Str.{bytes_eq};
ghost use Rattle.texts.specs.Repeated.{has_name, texts};
ghost use Rattle.cell_library.specs.Gates as gates;
ghost use Rattle.cell_library.specs.Library.{kind_named};
ghost use Rattle.box_model.specs.Ports as model;
ghost use Rattle.box_tables.specs.CutPorts as cut;
ghost use Rattle.box_tables.specs.CutPorts.{box_names, cell_names, cut_in_box, cut_in_flop};

use crate::name_places::NamePlaces;
use crate::port_table::PortTable;
use box_model::{BoxCell, BoxLibrary};
use cell_library::{Kind, Library, is_flop, own_kind_of};
use std::alloc::Global;
use std::marker::Model;
use texts::{OutOfMemory, Row, Text};
use verilog_tree::Instance;

/// The boxes of a library, its flip-flops and its cuts, found by name.
#[derive(Drop)]
pub struct BoxTable<'a> {
    library: &'a BoxLibrary,
    boxes: NamePlaces<'a>,
    cells: NamePlaces<'a>,
    cuts: NamePlaces<'a>,
    box_ports: Row<PortTable<'a>>,
    outputs: Row<PortTable<'a>>,
    own: PortTable<'a>,
}

impl<'a> Model for BoxTable<'a> {
    ghost use Rattle.box_model.specs.declared.boxes.BoxLibrary.{BoxLibrary};
    ghost use Rattle.box_tables.specs.CutPorts.{HoldsLibrary};

    ghost Value = { BoxLibrary };

    ghost view = { λ t. t.library.now };

    ghost invariant = { λ t. HoldsLibrary t.library.now t.boxes t.cells t.cuts t.box_ports t.outputs t.own };
}

fn box_places<'a>(alloc: Global, boxes: &'a [BoxCell]) -> Result<NamePlaces<'a>, OutOfMemory>
    ensures { IfOk result (λ places. places ≡ box_names boxes.now) }
{
    let mut names = Vec::new(alloc);
    for cell in boxes {
        names.push(cell.name.as_bytes())?;
    }
    let places = NamePlaces::of(alloc, names)?;
    Ok(places)
}

fn add_name<'a>(names: &mut Vec<&'a [u8]>, name: &'a [u8]) -> Result<(), OutOfMemory>
    ensures { OnOk result (texts names.new.items ≡ texts names.old.items ++ name.now ∷ []) }
{
    names.push(name)?;
    Ok(())
}

fn names_of_cells<'a>(alloc: Global, cells: &'a Library) -> Result<Vec<&'a [u8]>, OutOfMemory>
    ensures { IfOk result (λ names. texts names.items ≡ cell_names cells.now) }
{
    let bound = cells.count();
    let mut names = Vec::new(alloc);
    for number in 0..bound {
        add_name(&mut names, cells.cell(number).name.as_bytes())?;
    }
    Ok(names)
}

fn tables_of_boxes<'a>(
    alloc: Global,
    boxes: &'a [BoxCell],
) -> Result<Row<PortTable<'a>>, OutOfMemory>
    ensures { IfOk result (λ tables. tables ≡ map cut_in_box boxes.now) }
{
    let mut tables = Row::new(alloc);
    for cell in boxes {
        tables.push(PortTable::of_box(alloc, cell)?)?;
    }
    Ok(tables)
}

fn output_tables<'a>(alloc: Global, cells: &'a Library) -> Result<Row<PortTable<'a>>, OutOfMemory>
    ensures { IfOk result (λ tables. tables ≡ map cut_in_flop cells.now) }
{
    let bound = cells.count();
    let mut tables = Row::new(alloc);
    for number in 0..bound {
        tables.push(PortTable::of_output(alloc, cells.cell(number).output.as_bytes())?)?;
    }
    Ok(tables)
}

fn table_at<'t, 'a>(tables: &'t [PortTable<'a>], place: usize) -> Option<&'t PortTable<'a>>
    ensures { option_copied result ≡ slice_get tables.now place }
{
    tables.get(place)
}

impl<'a> BoxTable<'a> {
    /// The table of a library.
    pub fn of(alloc: Global, library: &'a BoxLibrary) -> Result<BoxTable<'a>, OutOfMemory>
        ensures { IfOk result (λ table. table ≡ library.now) }
    {
        let boxes = box_places(alloc, library.boxes.as_slice())?;
        let names = names_of_cells(alloc, &library.cells)?;
        let cells = NamePlaces::of(alloc, names)?;
        let cuts = NamePlaces::of_texts(alloc, library.cuts.as_slice())?;
        let box_ports = tables_of_boxes(alloc, library.boxes.as_slice())?;
        let outputs = output_tables(alloc, &library.cells)?;
        let own = PortTable::of_output(alloc, b"Q")?;
        Ok(BoxTable {
            library,
            boxes,
            cells,
            cuts,
            box_ports,
            outputs,
            own,
        })
    }

    // The number of the listed cell of a name.
    fn number_of(&self, cell: &[u8]) -> Option<u32>
        ensures { result ≡ position (λ c. bytes_eq cell.now c.name) self.now.cells }
    {
        // Looked at so that the proof has its facts.
        let _count = self.library.cells.count();
        match self.cells.find(cell) {
            None => None,
            Some(place) => {
                let number = place as u32;
                Some(number)
            }
        }
    }

    fn kind_of(&self, cell: &[u8]) -> Option<Kind>
        ensures { result ≡ kind_named self.now.cells cell.now }
    {
        match own_kind_of(cell) {
            Some(kind) => Some(kind),
            None => match self.number_of(cell) {
                Some(number) => Some(Kind::Listed(number)),
                None => None,
            },
        }
    }

    // The output of a kind of flip-flops.
    fn output_of(&self, kind: Kind) -> Option<&PortTable<'a>>
        requires { gates.is_flop self.now.cells kind ≡ true }
        ensures { option_copied result ≡ cut.cut_in_kind self.now kind }
    {
        match kind {
            Kind::Flop(_flop) => Some(&self.own),
            Kind::Listed(number) => table_at(self.outputs.as_slice(), number as usize),
            _ => None,
        }
    }

    // The output of a kind, if it is one of flip-flops.
    fn ports_of_kind(&self, kind: Kind) -> Option<&PortTable<'a>>
        ensures { option_copied result ≡ cut.cut_in_kind self.now kind }
    {
        if is_flop(&self.library.cells, kind) {
            self.output_of(kind)
        } else {
            None
        }
    }

    // The output of the flip-flop of a name.
    fn ports_of_flop(&self, cell: &[u8]) -> Option<&PortTable<'a>>
        ensures { option_copied result ≡ option_map model.given_scalar
            (model.flop_output self.now cell.now) }
    {
        match self.kind_of(cell) {
            None => None,
            Some(kind) => self.ports_of_kind(kind),
        }
    }

    /// Whether a cell of this name is a flip-flop.
    pub fn is_flop(&self, cell: &[u8]) -> bool
        ensures { result ≡ is_some (model.flop_output self.now cell.now) }
    {
        self.ports_of_flop(cell).is_some()
    }

    /// The names of the instances that are cut, in order.
    pub fn cuts(&self) -> &'a [Text]
        ensures { result.now ≡ self.now.cuts }
    {
        self.library.cuts.as_slice()
    }

    // The ports of the box of a name.
    fn ports_of_box(&self, cell: &[u8]) -> Option<&PortTable<'a>>
        ensures { option_copied result ≡ option_map cut_in_box (model.box_named self.now cell.now) }
    {
        match self.boxes.find(cell) {
            None => None,
            Some(place) => table_at(self.box_ports.as_slice(), place),
        }
    }

    /// Whether a cell of this name is a box.
    pub fn is_box(&self, cell: &[u8]) -> bool
        ensures { result ≡ is_some (model.box_named self.now cell.now) }
    {
        self.boxes.has(cell)
    }

    /// Whether an instance of this name is cut.
    pub fn is_cut(&self, instance: &[u8]) -> bool
        ensures { result ≡ has_name self.now.cuts instance.now }
    {
        self.cuts.has(instance)
    }

    // Those of a flip-flop that is cut.
    fn ports_of_cut(&self, instance: &Instance) -> Option<&PortTable<'a>>
        ensures { option_copied result ≡ cut.cut_at self.now instance.now }
    {
        if self.is_cut(instance.name.as_bytes()) {
            self.ports_of_flop(instance.cell.as_bytes())
        } else {
            None
        }
    }

    /// The ports that are cut at an instance; none at one that is left as it is.
    pub fn ports_of(&self, instance: &Instance) -> Option<&PortTable<'a>>
        ensures { option_copied result ≡ model.cut_ports self.now instance.now }
    {
        match self.ports_of_box(instance.cell.as_bytes()) {
            Some(ports) => Some(ports),
            None => self.ports_of_cut(instance),
        }
    }
}
