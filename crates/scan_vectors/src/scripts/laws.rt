ghost use Rattle.scan_vectors.specs.ScriptsLaws.{IllegalAtOneLine, LegalIsNotIllegal};

/// A law: lines are legal, or illegal at one line, and not both; so `resolve` has one answer but for want of memory.
pub fn legal_lines_are_not_illegal()
    ensures legal { LegalIsNotIllegal }
    ensures once { IllegalAtOneLine }
{}
