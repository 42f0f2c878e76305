// The library that a command takes.
ghost use Rattle.std.specs.Prelude.{IfErr, IfOk};
ghost use Rattle.box_model.specs.Sound.{IsSoundLibrary};
ghost use Rattle.command_edges.specs.Libraries.{IsBoxLibraryOf, IsLibraryOf, StandsInBoxLibrary, StandsInLibrary};

use box_model::BoxLibrary;
use box_texts::{read_boxes, spelled_libraries_are_sound};
use cell_library::Library;
use cell_text::read_library;
use command_faults::Fault;
use std::alloc::Global;
use texts::Text;

/// The library that the first of these texts spells, or none without one.
pub fn library_of<'a>(alloc: Global, more: &[Text]) -> Result<Library, Fault<'a>>
    ensures library { IfOk result (IsLibraryOf more.now) }
    ensures fault { IfErr result (StandsInLibrary more.now) }
{
    let [text, ..] = more else {
        return Ok(Library::new(alloc));
    };
    Ok(read_library(alloc, text.as_bytes())?)
}

/// The library, which may have boxes, that the first of these texts spells, or none without one.
pub fn boxes_of<'a>(alloc: Global, more: &[Text]) -> Result<BoxLibrary, Fault<'a>>
    ensures library { IfOk result (IsBoxLibraryOf more.now) }
    ensures sound { IfOk result IsSoundLibrary }
    ensures fault { IfErr result (StandsInBoxLibrary more.now) }
{
    // A law that the proof uses.
    spelled_libraries_are_sound();
    let [text, ..] = more else {
        return Ok(BoxLibrary::of_cells(alloc, Library::new(alloc)));
    };
    Ok(read_boxes(alloc, text.as_bytes())?)
}
