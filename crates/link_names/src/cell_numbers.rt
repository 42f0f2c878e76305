// The cells of a library by their names. A netlist may have many instances and its library many cells, so they are
// found in a table.
ghost use Rattle.std.specs.Prelude.{◌≡◌, ◌++◌, ◌∷◌, [], false, position, IfOk, OnOk};
ghost use Rattle.std.specs.Map.{keys_of};
ghost use Rattle.std.specs.Str.{bytes_eq};
ghost use Rattle.cell_library.specs.Library.{kind_named};
ghost use Rattle.link_model.specs.Lists.{has_name};
ghost use Rattle.link_names.specs.CellNumbers.{numbers_in, HasNumbers};

use cell_library::{Kind, Library, own_kind_of};
use indexmap::IndexMap;
use std::alloc::Global;
use texts::OutOfMemory;

// Enters the number of a cell under its name, which is new.
fn enter<'a>(
    numbers: &mut IndexMap<&'a [u8], u32>,
    name: &'a [u8],
    number: u32,
) -> Result<(), OutOfMemory>
    requires { has_name (keys_of (numbers_in numbers.old)) name.now ≡ false }
    ensures { OnOk result (numbers_in numbers.new ≡ numbers_in numbers.old ++ (name.now, number) ∷ []) }
{
    numbers.insert(name, number)?;
    Ok(())
}

/// The table of a library's cells: the number of each under its name.
pub fn numbers_of<'a>(
    alloc: Global,
    library: &'a Library,
) -> Result<IndexMap<&'a [u8], u32>, OutOfMemory>
    ensures { IfOk result (HasNumbers library.now) }
{
    let bound = library.count();
    let mut numbers = IndexMap::new(alloc);
    numbers.reserve(bound as usize)?;
    for number in 0..bound {
        enter(&mut numbers, library.cell(number).name.as_bytes(), number)?;
    }
    Ok(numbers)
}

// The number of the cell of this name.
fn place_of(library: &Library, numbers: &IndexMap<&[u8], u32>, name: &[u8]) -> Option<u32>
    requires { HasNumbers library.now numbers.now }
    ensures { result ≡ position (λ cell. bytes_eq name.now cell.name) library.now }
{
    numbers.get(name).copied()
}

/// The cell of this name: one of the seven, or one that the library lists, which is looked up in its table.
pub fn kind_of(library: &Library, numbers: &IndexMap<&[u8], u32>, name: &[u8]) -> Option<Kind>
    requires { HasNumbers library.now numbers.now }
    ensures { result ≡ kind_named library.now name.now }
{
    match own_kind_of(name) {
        Some(kind) => Some(kind),
        None => match place_of(library, numbers, name) {
            Some(number) => Some(Kind::Listed(number)),
            None => None,
        },
    }
}
