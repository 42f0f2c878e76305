ghost use Rattle.status_fitting.specs.Exactly.{SpelledOnce, SpelledIsFaultless, FaultlessIsSpelled, AtFaultOnce};

/// A law: bytes spell registers once, or have one fault, and not both.
pub fn texts_of_registers_are_spelled_or_at_fault()
    ensures once { SpelledOnce }
    ensures faultless { SpelledIsFaultless }
    ensures spelled { FaultlessIsSpelled }
    ensures fault { AtFaultOnce }
{}
