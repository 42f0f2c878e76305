ghost use Rattle.cell_text.specs.Laws.{SpelledOnce, SpelledIsFaultless, FaultlessIsSpelled, LinesHaveForms};

use cell_library::own_names_are_exact;

/// A law: bytes spell one library, or have a fault, and not both.
pub fn texts_of_libraries_are_spelled_or_at_fault()
    ensures once { SpelledOnce }
    ensures faultless { SpelledIsFaultless }
    ensures spelled { FaultlessIsSpelled }
{
    own_names_are_exact();
}

/// A law: a line has the form of a cell's exactly where its words are written so.
pub fn lines_have_forms()
    ensures { LinesHaveForms }
{
    own_names_are_exact();
}
