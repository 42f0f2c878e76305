ghost use Rattle.scan_vectors.specs.Exactly.{SpelledOnce, SpelledIsFaultless, FaultlessIsSpelled, SpelledIsPrintable};
ghost use Rattle.scan_vectors.specs.Exactly.{CanonicalIsSpelled};

use word_cutter::lines::{rows_of_texts_are_rows, texts_of_rows_read_back};

/// A law: bytes spell one list of event lines, or have a first fault, and not both. What some bytes
/// spell can be printed.
pub fn texts_of_events_are_spelled_or_at_fault()
    ensures once { SpelledOnce }
    ensures faultless { SpelledIsFaultless }
    ensures spelled { FaultlessIsSpelled }
    ensures printable { SpelledIsPrintable }
{
    rows_of_texts_are_rows();
    texts_of_rows_read_back();
}

/// A law: the canonical text of lines that can be printed spells these lines, numbered from 2. So lines that were made,
/// and not read, are lines that some text spells.
pub fn canonical_texts_spell_their_lines()
    ensures { CanonicalIsSpelled }
{
    texts_of_rows_read_back();
}
