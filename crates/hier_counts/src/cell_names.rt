// The names of cells. A text may have many instances and a library many cells, so the library's are found in a table.
ghost use Rattle.std.specs.Prelude.{◌≡◌, position, IfOk};
ghost use Rattle.std.specs.Str.{bytes_eq};
ghost use Rattle.hier_model.specs.WalkNames.{texts};
ghost use Rattle.hier_model.specs.Faults.{is_cell};
ghost use Rattle.hier_counts.specs.Cells.{cell_names};

use cell_library::{Library, own_kind_of};
use indexmap::IndexMap;
use std::alloc::Global;
use std::marker::Model;
use texts::OutOfMemory;
use texts::first_faults::first_places;

/// The names of the seven cells and of those that a library lists.
#[derive(Drop)]
pub struct CellNames<'a> {
    library: &'a Library,
    places: IndexMap<&'a [u8], usize>,
}

impl<'a> Model for CellNames<'a> {
    ghost use Rattle.std.specs.Prelude.{List};
    ghost use Rattle.cell_library.specs.declared.listed.ListedCell.{ListedCell};
    ghost use Rattle.hier_counts.specs.Cells.{FindsCells};

    ghost Value = { List ListedCell };

    ghost view = { λ t. t.library.now };

    ghost invariant = { λ t. FindsCells t.library.now t.places.entries };
}

// The names of the cells that a library lists.
fn names_of<'a>(alloc: Global, library: &'a Library) -> Result<Vec<&'a [u8]>, OutOfMemory>
    ensures { IfOk result (λ names. texts names.items ≡ cell_names library.now) }
{
    let bound = library.count();
    let mut names = Vec::new(alloc);
    for number in 0..bound {
        names.push(library.cell(number).name.as_bytes())?;
    }
    Ok(names)
}

impl<'a> CellNames<'a> {
    /// The names of the cells with this library.
    pub fn of(alloc: Global, library: &'a Library) -> Result<CellNames<'a>, OutOfMemory>
        ensures { IfOk result (λ cells. cells ≡ library.now) }
    {
        let names = names_of(alloc, library)?;
        let places = first_places(alloc, &names)?;
        Ok(CellNames { library, places })
    }

    // Where the library lists a cell of this name.
    fn place(&self, name: &[u8]) -> Option<usize>
        ensures { result ≡ position (λ cell. bytes_eq name.now cell.name) self.now }
    {
        self.places.get(name).copied()
    }

    /// Whether a cell has the name.
    pub fn has(&self, name: &[u8]) -> bool
        ensures { result ≡ is_cell self.now name.now }
    {
        match own_kind_of(name) {
            Some(_) => true,
            None => self.place(name).is_some(),
        }
    }
}
