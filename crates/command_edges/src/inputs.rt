// Taking the texts of a command apart.
ghost use Rattle.std.specs.Prelude.{◌≡◌, ◌≤◌, ℕ, List, [], ◌∷◌, drop, length, IfErr, IfOk};
ghost use Rattle.cell_library.specs.declared.listed.ListedCell.{ListedCell};
ghost use Rattle.box_model.specs.declared.boxes.BoxLibrary.{BoxLibrary};
ghost use Rattle.box_model.specs.Sound.{IsSoundLibrary};
ghost use Rattle.command_edges.specs.Libraries.{AreThree, AreTwo, IsFirst, StandsBehindFirst, StandsBehindThree, StandsBehindTwo};
ghost use Rattle.command_edges.specs.Libraries.{IsBoxLibraryOf, IsLibraryOf, StandsInBoxLibrary, StandsInLibrary};

use crate::libraries::{boxes_of, library_of};
use box_model::BoxLibrary;
use cell_library::Library;
use command_faults::Fault;
use std::alloc::Global;
use std::mem::replace;
use texts::Text;

/// Takes the text of one.
pub fn take_one(alloc: Global, texts: &mut [Text]) -> Text
    requires { length texts.old ≡ 1 }
    ensures { texts.old ≡ result ∷ [] }
{
    let [one] = texts else { unreachable!() };
    replace(one, Text::new(alloc))
}

// The library that the texts behind so many others come to.
fn library_behind<'a>(alloc: Global, texts: &[Text], count: usize) -> Result<Library, Fault<'a>>
    requires { count ≤ length texts.now }
    ensures library { IfOk result (IsLibraryOf (drop count texts.now)) }
    ensures fault { IfErr result (StandsInLibrary (drop count texts.now)) }
{
    library_of(alloc, &texts[count..])
}

// The same of one that may have boxes.
fn boxes_behind<'a>(alloc: Global, texts: &[Text], count: usize) -> Result<BoxLibrary, Fault<'a>>
    requires { count ≤ length texts.now }
    ensures library { IfOk result (IsBoxLibraryOf (drop count texts.now)) }
    ensures sound { IfOk result IsSoundLibrary }
    ensures fault { IfErr result (StandsInBoxLibrary (drop count texts.now)) }
{
    boxes_of(alloc, &texts[count..])
}

// Takes the first two texts.
fn first_two(alloc: Global, texts: &mut [Text]) -> (Text, Text)
    requires { 2 ≤ length texts.old }
    ensures { texts.old ≡ result.0 ∷ result.1 ∷ drop 2 texts.old }
{
    let one = replace(&mut texts[0], Text::new(alloc));
    let two = replace(&mut texts[1], Text::new(alloc));
    (one, two)
}

// Takes the first three.
fn first_three(alloc: Global, texts: &mut [Text]) -> (Text, Text, Text)
    requires { 3 ≤ length texts.old }
    ensures { texts.old ≡ result.0 ∷ result.1 ∷ result.2 ∷ drop 3 texts.old }
{
    let one = replace(&mut texts[0], Text::new(alloc));
    let two = replace(&mut texts[1], Text::new(alloc));
    let three = replace(&mut texts[2], Text::new(alloc));
    (one, two, three)
}

/// Takes the first text, and the library with boxes that those behind it come to, whose text is looked at first.
pub fn take_first<'a>(alloc: Global, texts: &mut [Text]) -> Result<(Text, BoxLibrary), Fault<'a>>
    requires { 1 ≤ length texts.old }
    ensures taken { IfOk result (λ taken. IsFirst BoxLibrary IsBoxLibraryOf texts.old taken.0 taken.1) }
    ensures fault { IfErr result (StandsBehindFirst StandsInBoxLibrary texts.old) }
{
    let library = boxes_behind(alloc, texts, 1)?;
    let one = replace(&mut texts[0], Text::new(alloc));
    Ok((one, library))
}

/// Takes two texts, and the library that those behind them come to, whose text is looked at first.
pub fn take_two<'a>(alloc: Global, texts: &mut [Text]) -> Result<(Text, Text, Library), Fault<'a>>
    requires { 2 ≤ length texts.old }
    ensures taken { IfOk result (λ taken.
        AreTwo (List ListedCell) IsLibraryOf texts.old taken.0 taken.1 taken.2) }
    ensures fault { IfErr result (StandsBehindTwo StandsInLibrary texts.old) }
{
    let library = library_behind(alloc, texts, 2)?;
    let (one, two) = first_two(alloc, texts);
    Ok((one, two, library))
}

/// The same with a library that may have boxes.
pub fn take_two_boxed<'a>(
    alloc: Global,
    texts: &mut [Text],
) -> Result<(Text, Text, BoxLibrary), Fault<'a>>
    requires { 2 ≤ length texts.old }
    ensures taken { IfOk result (λ taken.
        AreTwo BoxLibrary IsBoxLibraryOf texts.old taken.0 taken.1 taken.2) }
    ensures sound { IfOk result (λ taken. IsSoundLibrary taken.2) }
    ensures fault { IfErr result (StandsBehindTwo StandsInBoxLibrary texts.old) }
{
    let library = boxes_behind(alloc, texts, 2)?;
    let (one, two) = first_two(alloc, texts);
    Ok((one, two, library))
}

/// Takes three texts, and the library that those behind them come to, whose text is looked at first.
pub fn take_three<'a>(
    alloc: Global,
    texts: &mut [Text],
) -> Result<(Text, Text, Text, Library), Fault<'a>>
    requires { 3 ≤ length texts.old }
    ensures taken { IfOk result (λ taken.
        AreThree (List ListedCell) IsLibraryOf texts.old taken.0 taken.1 taken.2 taken.3) }
    ensures fault { IfErr result (StandsBehindThree StandsInLibrary texts.old) }
{
    let library = library_behind(alloc, texts, 3)?;
    let (one, two, three) = first_three(alloc, texts);
    Ok((one, two, three, library))
}

/// The same with a library that may have boxes.
pub fn take_three_boxed<'a>(
    alloc: Global,
    texts: &mut [Text],
) -> Result<(Text, Text, Text, BoxLibrary), Fault<'a>>
    requires { 3 ≤ length texts.old }
    ensures taken { IfOk result (λ taken.
        AreThree BoxLibrary IsBoxLibraryOf texts.old taken.0 taken.1 taken.2 taken.3) }
    ensures sound { IfOk result (λ taken. IsSoundLibrary taken.3) }
    ensures fault { IfErr result (StandsBehindThree StandsInBoxLibrary texts.old) }
{
    let library = boxes_behind(alloc, texts, 3)?;
    let (one, two, three) = first_three(alloc, texts);
    Ok((one, two, three, library))
}
