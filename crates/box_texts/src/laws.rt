ghost use Rattle.box_texts.specs.Laws.{SpelledOnce, SpelledIsFaultless, FaultlessIsSpelled, SpelledIsSound, SpelledCanBePrinted};

use cell_library::own_names_are_exact;
use word_cutter::lines::texts_of_rows_read_back;

/// A law: bytes spell one library, or have a fault, and not both.
pub fn texts_of_boxes_are_spelled_or_at_fault()
    ensures once { SpelledOnce }
    ensures faultless { SpelledIsFaultless }
    ensures spelled { FaultlessIsSpelled }
{
    own_names_are_exact();
}

/// A law: a library that bytes spell is sound, and its canonical text spells it.
pub fn spelled_libraries_are_sound()
    ensures sound { SpelledIsSound }
    ensures printed { SpelledCanBePrinted }
{
    texts_of_rows_read_back();
}
