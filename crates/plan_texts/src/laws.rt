ghost use Rattle.plan_texts.specs.Exactly.{SpelledOnce, SpelledIsFaultless, FaultlessIsSpelled, AtFaultOnce};
ghost use Rattle.plan_texts.specs.First.{FirstVersionStays};
ghost use Rattle.plan_texts.specs.Spells.{CanonicalPlansSpell};

use word_cutter::lines::{rows_of_texts_are_rows, texts_of_rows_read_back};

/// A law: bytes spell one plan, or have one fault, and not both.
pub fn texts_of_plans_are_spelled_or_at_fault()
    ensures once { SpelledOnce }
    ensures faultless { SpelledIsFaultless }
    ensures spelled { FaultlessIsSpelled }
    ensures fault { AtFaultOnce }
{}

/// A law: a text whose first line is `plan 1` spells exactly the plans of version 1 by itself: its lines, its seven
/// instructions and its rules.
pub fn first_version_stays()
    ensures { FirstVersionStays }
{}

/// A law: the canonical text of a plan that some bytes spell spells it.
pub fn canonical_plans_spell_themselves()
    ensures { CanonicalPlansSpell }
{
    rows_of_texts_are_rows();
    texts_of_rows_read_back();
}
